//! A configuration is read from a text.
ghost use Rattle.std.specs.Prelude.{◌≡◌, ◌⊎◌, IfOk, option_map};
ghost use Rattle.gz_config.specs.Configurations.{IsConfig};
ghost use Rattle.toml.specs.Data.{get_member};
ghost use Rattle.toml.specs.View.{view, table_view};
ghost use Rattle.gz_settings.specs.Keys.{key_text, first_unknown};
ghost use Rattle.gz_settings.specs.Settings.{size_of, size_in, order_named, order_of, order_in, config_in, config_of, checked, read_of};

use crate::refusal::ConfigText;
use crate::setting::{Setting, is_known};
use gz_core::{Config, Order, Word};
use std::alloc::Global;
use toml::{Table, Value};

/// The configuration of a text in TOML; a setting that is missing has its value of `Config::DEFAULT`.
pub fn read_config(alloc: Global, bytes: &[u8]) -> Result<Config, ConfigText>
    ensures exact { (result ≡ Err ConfigText.NoMemory) ⊎ (result ≡ read_of bytes.now) }
    ensures config { IfOk result IsConfig }
{
    match toml::table_from_slice(alloc, bytes) {
        Ok(table) => config_of(alloc, &table),
        Err(error) if error.is_memory() => Err(ConfigText::NoMemory),
        Err(_) => Err(ConfigText::NotToml),
    }
}

/// The configuration of a table, of which each key must be known.
fn config_of(alloc: Global, table: &Table) -> Result<Config, ConfigText>
    ensures exact { (result ≡ Err ConfigText.NoMemory) ⊎ (result ≡ config_of (table_view table.now)) }
    ensures config { IfOk result IsConfig }
{
    match first_unknown(table) {
        Some(key) => Err(unknown(alloc, key)),
        None => checked(config_in(table)),
    }
}

/// The first key that is that of no setting.
#[tactic(auto, using(crate::proofs::Entries::unknown_among_keys))]
fn first_unknown(table: &Table) -> Option<&str>
    ensures { option_map (λ key. key.now) result ≡ first_unknown (table_view table.now) }
{
    for key in table.keys() {
        if !is_known(key.as_str()) {
            return Some(key.as_str());
        }
    }
    None
}

/// The refusal of a key that is that of no setting.
fn unknown(alloc: Global, key: &str) -> ConfigText
    ensures { (result ≡ ConfigText.NoMemory) ⊎ (result ≡ ConfigText.UnknownKey key.now) }
{
    match String::from_str(alloc, key) {
        Ok(name) => ConfigText::UnknownKey { name: Word(name) },
        Err(_) => ConfigText::NoMemory,
    }
}

/// The configuration, if it keeps the rules.
fn checked(config: Result<Config, ConfigText>) -> Result<Config, ConfigText>
    ensures exact { result ≡ checked config }
    ensures config { IfOk result IsConfig }
{
    let config = config?;
    match config.check() {
        Ok(()) => Ok(config),
        Err(why) => Err(ConfigText::Rule { why }),
    }
}

/// The configuration that a table's settings make, whether or not it keeps the rules.
fn config_in(table: &Table) -> Result<Config, ConfigText>
    ensures { result ≡ config_in (table_view table.now) }
{
    let n = size_in(table, Setting::N, Config::DEFAULT.n)?;
    let qc = size_in(table, Setting::Qc, Config::DEFAULT.qc)?;
    let qf = size_in(table, Setting::Qf, Config::DEFAULT.qf)?;
    let k = size_in(table, Setting::K, Config::DEFAULT.k)?;
    let m = size_in(table, Setting::M, Config::DEFAULT.m)?;
    let f = size_in(table, Setting::F, Config::DEFAULT.f)?;
    let tries = size_in(table, Setting::Tries, 8)?;
    let order = order_in(table)?;
    Ok(Config {
        n,
        qc,
        qf,
        k,
        m,
        f,
        tries: tries as u32,
        order,
    })
}

/// The size that a table gives to a setting, which has one without it, too.
fn size_in(table: &Table, setting: Setting, default: u16) -> Result<u16, ConfigText>
    ensures { result ≡ size_in setting default (table_view table.now) }
{
    match value_of(table, setting) {
        None => Ok(default),
        Some(value) => match size_of(value) {
            Some(size) => Ok(size),
            None => Err(ConfigText::Kind { name: setting }),
        },
    }
}

/// The order that a table gives.
fn order_in(table: &Table) -> Result<Order, ConfigText>
    ensures { result ≡ order_in (table_view table.now) }
{
    match value_of(table, Setting::Order) {
        None => Ok(Order::Parallel),
        Some(value) => match order_of(value) {
            Some(order) => Ok(order),
            None => Err(ConfigText::Kind {
                name: Setting::Order,
            }),
        },
    }
}

/// The value of a setting in a table.
fn value_of(table: &Table, setting: Setting) -> Option<&Value>
    ensures { option_map (λ value. view value.now) result ≡ get_member (key_text setting) (table_view table.now) }
{
    table.get(setting.key())
}

/// The size that a value is: an integer from 0 to 65535.
fn size_of(value: &Value) -> Option<u16>
    ensures { result ≡ size_of (view value.now) }
{
    let size = value.as_integer()?;
    if 0 <= size && size <= 65535 {
        Some(size as u16)
    } else {
        None
    }
}

/// The order that a value names.
fn order_of(value: &Value) -> Option<Order>
    ensures { result ≡ order_of (view value.now) }
{
    let name = value.as_str()?;
    order_named(name)
}

fn order_named(name: &str) -> Option<Order>
    ensures { result ≡ order_named name.now }
{
    if name == "parallel" {
        Some(Order::Parallel)
    } else if name == "blobs-first" {
        Some(Order::BlobsFirst)
    } else {
        None
    }
}
