//! A configuration, a schedule, a log and a record are read from a shelf.
ghost use Rattle.std.specs.Prelude.{◌≡◌, Some, IfOk, IfErr, All, option_map};
ghost use Rattle.gz_config.specs.Configurations.{IsConfig};
ghost use Rattle.gz_history.specs.Broken.{IsHistory};
ghost use Rattle.gz_lines.specs.Schedule.{IsBoundedLine};
ghost use Rattle.gz_show.specs.Shown.{MayShow};
ghost use Rattle.gz_cli.specs.Inputs.{HasBytes, Configures, Loads, LoadsLog, LoadsRecord, IsRecordText, shown};
ghost use Rattle.gz_cli.specs.Causes.{NoneFell, RefusalCause, UnreadCause, ConfigCause, SettingCause, LoadCause, LogCause, RecordCause, ShelfCause, config_status, text_status, record_status};

use crate::status::Status;
use gz_core::{Config, TextError, Word};
use gz_history::CallRec;
use gz_logs::parse_log;
use gz_script::{Line, read_schedule};
use gz_settings::{ConfigText, read_config};
use gz_show::{ShowError, show_fragment, show_row};
use gz_site::{Shelf, ShelfError};
use gz_words::Record;
use std::alloc::Global;

/// The most bytes of a file.
pub const MOST_FILE_BYTES: usize = 67_108_864;

/// What a replay reads.
#[derive(Drop)]
pub struct Inputs {
    pub config: Config,
    pub lines: Vec<Line>,
}

/// The configuration of a name, or the default one where there is no name, and then the schedule of a name; or the status that
/// says why they can't be had.
pub fn load<F: Shelf>(
    alloc: Global,
    schedule: &str,
    config: Option<&str>,
    shelf: &mut F,
) -> Result<Inputs, Status>
    ensures configures { IfOk result (λ inputs. Configures (F.files shelf.old) (option_map (λ name. name.now) config.entry) inputs.config) }
    ensures config { IfOk result (λ inputs. IsConfig inputs.config) }
    ensures loads { IfOk result (λ inputs. Loads (F.files shelf.old) schedule.now inputs.lines.items) }
    ensures bounded { IfOk result (λ inputs. All IsBoundedLine inputs.lines.items) }
    ensures cause { IfErr result (RefusalCause (F.files shelf.old) schedule.now (option_map (λ name. name.now) config.entry) (record { faults = F.faults shelf.old; absences = F.absences shelf.old; excesses = F.excesses shelf.old; sink = 0 }) (record { faults = F.faults shelf.new; absences = F.absences shelf.new; excesses = F.excesses shelf.new; sink = 0 })) }
{
    match configuration(alloc, config, shelf) {
        Ok(config) => match lines(alloc, schedule, shelf) {
            Ok(lines) => Ok(Inputs { config, lines }),
            Err(status) => Err(status),
        },
        Err(status) => Err(status),
    }
}

/// The configuration of a file, or the default one where no file is named; or the status that says why there is none.
fn configuration<F: Shelf>(
    alloc: Global,
    name: Option<&str>,
    shelf: &mut F,
) -> Result<Config, Status>
    ensures configures { IfOk result (Configures (F.files shelf.old) (option_map (λ name. name.now) name.entry)) }
    ensures config { IfOk result IsConfig }
    ensures same { F.files shelf.new ≡ F.files shelf.old }
    ensures later { NoneFell (record { faults = F.faults shelf.old; absences = F.absences shelf.old; excesses = F.excesses shelf.old; sink = 0 }) (record { faults = F.faults shelf.new; absences = F.absences shelf.new; excesses = F.excesses shelf.new; sink = 0 }) }
    ensures cause { IfErr result (SettingCause (F.files shelf.old) (option_map (λ name. name.now) name.entry) (record { faults = F.faults shelf.old; absences = F.absences shelf.old; excesses = F.excesses shelf.old; sink = 0 }) (record { faults = F.faults shelf.new; absences = F.absences shelf.new; excesses = F.excesses shelf.new; sink = 0 })) }
{
    match name {
        Some(name) => named_configuration(alloc, name, shelf),
        None => Ok(Config::DEFAULT),
    }
}

/// The configuration of a file, or the status that says why there is none.
fn named_configuration<F: Shelf>(alloc: Global, name: &str, shelf: &mut F) -> Result<Config, Status>
    ensures configures { IfOk result (Configures (F.files shelf.old) (Some name.now)) }
    ensures config { IfOk result IsConfig }
    ensures same { F.files shelf.new ≡ F.files shelf.old }
    ensures later { NoneFell (record { faults = F.faults shelf.old; absences = F.absences shelf.old; excesses = F.excesses shelf.old; sink = 0 }) (record { faults = F.faults shelf.new; absences = F.absences shelf.new; excesses = F.excesses shelf.new; sink = 0 }) }
    ensures cause { IfErr result (ConfigCause (F.files shelf.old) name.now (record { faults = F.faults shelf.old; absences = F.absences shelf.old; excesses = F.excesses shelf.old; sink = 0 }) (record { faults = F.faults shelf.new; absences = F.absences shelf.new; excesses = F.excesses shelf.new; sink = 0 })) }
{
    match read(alloc, name, shelf) {
        Ok(bytes) => match read_config(alloc, bytes.as_slice()) {
            Ok(config) => Ok(config),
            Err(why) => Err(bad_config(why)),
        },
        Err(status) => Err(status),
    }
}

/// The lines of the schedule in a file, or the status that says why there are none.
fn lines<F: Shelf>(alloc: Global, name: &str, shelf: &mut F) -> Result<Vec<Line>, Status>
    ensures loads { IfOk result (λ lines. Loads (F.files shelf.old) name.now lines.items) }
    ensures bounded { IfOk result (λ lines. All IsBoundedLine lines.items) }
    ensures cause { IfErr result (LoadCause (F.files shelf.old) name.now (record { faults = F.faults shelf.old; absences = F.absences shelf.old; excesses = F.excesses shelf.old; sink = 0 }) (record { faults = F.faults shelf.new; absences = F.absences shelf.new; excesses = F.excesses shelf.new; sink = 0 })) }
{
    match read(alloc, name, shelf) {
        Ok(bytes) => match read_schedule(alloc, bytes.as_slice()) {
            Ok(lines) => Ok(lines),
            Err(error) => Err(bad_text(error)),
        },
        Err(status) => Err(status),
    }
}

/// The calls of the log in a file, or the status that says why there are none.
pub fn calls<F: Shelf>(alloc: Global, name: &str, shelf: &mut F) -> Result<Vec<CallRec>, Status>
    ensures loads { IfOk result (λ calls. LoadsLog (F.files shelf.old) name.now calls.items) }
    ensures history { IfOk result (λ calls. IsHistory calls.items) }
    ensures cause { IfErr result (LogCause (F.files shelf.old) name.now (record { faults = F.faults shelf.old; absences = F.absences shelf.old; excesses = F.excesses shelf.old; sink = 0 }) (record { faults = F.faults shelf.new; absences = F.absences shelf.new; excesses = F.excesses shelf.new; sink = 0 })) }
{
    match read(alloc, name, shelf) {
        Ok(bytes) => match parse_log(alloc, bytes.as_slice()) {
            Ok(calls) => Ok(calls),
            Err(error) => Err(bad_text(error)),
        },
        Err(status) => Err(status),
    }
}

/// The lines of the record of a kind in a file, or the status that says why there are none.
pub fn record_lines<F: Shelf>(
    alloc: Global,
    kind: Record,
    name: &str,
    shelf: &mut F,
) -> Result<Vec<u8>, Status>
    ensures loads { IfOk result (λ lines. LoadsRecord (F.files shelf.old) kind name.now lines.items) }
    ensures cause { IfErr result (RecordCause (F.files shelf.old) kind name.now (record { faults = F.faults shelf.old; absences = F.absences shelf.old; excesses = F.excesses shelf.old; sink = 0 }) (record { faults = F.faults shelf.new; absences = F.absences shelf.new; excesses = F.excesses shelf.new; sink = 0 })) }
{
    match read(alloc, name, shelf) {
        Ok(bytes) => match shown(alloc, kind, bytes.as_slice()) {
            Ok(text) => Ok(text),
            Err(error) => Err(bad_record(error)),
        },
        Err(status) => Err(status),
    }
}

/// The lines of the record of a kind that these bytes are, or their first fault.
fn shown(alloc: Global, kind: Record, bytes: &[u8]) -> Result<Vec<u8>, ShowError>
    ensures found { IfOk result (λ lines. IsRecordText kind bytes.now lines.items) }
    ensures exact { MayShow result (shown kind bytes.now) }
{
    match kind {
        Record::Row => show_row(alloc, bytes),
        Record::Fragment => show_fragment(alloc, bytes),
    }
}

/// The bytes of a file, or the status that says why there are none.
fn read<F: Shelf>(alloc: Global, name: &str, shelf: &mut F) -> Result<Vec<u8>, Status>
    ensures bytes { IfOk result (λ bytes. HasBytes (F.files shelf.old) name.now bytes.items) }
    ensures same { F.files shelf.new ≡ F.files shelf.old }
    ensures later { NoneFell (record { faults = F.faults shelf.old; absences = F.absences shelf.old; excesses = F.excesses shelf.old; sink = 0 }) (record { faults = F.faults shelf.new; absences = F.absences shelf.new; excesses = F.excesses shelf.new; sink = 0 }) }
    ensures cause { IfErr result (UnreadCause (F.files shelf.old) name.now (record { faults = F.faults shelf.old; absences = F.absences shelf.old; excesses = F.excesses shelf.old; sink = 0 }) (record { faults = F.faults shelf.new; absences = F.absences shelf.new; excesses = F.excesses shelf.new; sink = 0 })) }
{
    match shelf.read(alloc, name, MOST_FILE_BYTES) {
        Ok(bytes) => Ok(bytes),
        Err(error) => Err(unread(alloc, name, error)),
    }
}

/// The status of a file that could not be read.
fn unread(alloc: Global, name: &str, error: ShelfError) -> Status
    ensures { ShelfCause name.now error result }
{
    let Ok(name) = String::from_str(alloc, name) else {
        return Status::NoMemory;
    };
    let name = Word(name);
    match error {
        ShelfError::Failed => Status::ShelfFault { name },
        ShelfError::NoSuch => Status::NoFile { name },
        ShelfError::TooLarge => Status::FileTooLarge { name },
        ShelfError::NoMemory => Status::NoMemory,
    }
}

/// The status of a text that gives no configuration.
fn bad_config(why: ConfigText) -> Status
    ensures { result ≡ config_status why }
{
    match why {
        ConfigText::NoMemory => Status::NoMemory,
        why => Status::BadConfig { why },
    }
}

/// The status of a text that is no schedule, or no log.
fn bad_text(error: TextError) -> Status
    ensures { result ≡ text_status error }
{
    match error {
        TextError::Bad { line, why } => Status::BadText { line, why },
        TextError::TooLong { line } => Status::TooLong { line },
        TextError::NoMemory => Status::NoMemory,
    }
}

/// The status of bytes that are no record.
fn bad_record(error: ShowError) -> Status
    ensures { result ≡ record_status error }
{
    match error {
        ShowError::Bad { at, why } => Status::BadRecord { at, why },
        ShowError::NoMemory => Status::NoMemory,
    }
}
