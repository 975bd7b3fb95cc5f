//! What the text of a log and the calls that are read of it tell of each other.
ghost use Rattle.gz_logs.specs.Laws.{ReadIsWritten, WrittenIsRead, ReadCanBeWritten};

/// Law: what is read is the log of these calls, but for lines that are skipped, blanks and ends of lines.
pub fn read_is_written()
    ensures { ReadIsWritten }
{}

/// Law: the log of calls within bounds is read back as these calls, events and skipped events.
pub fn written_is_read()
    ensures { WrittenIsRead }
{}

/// Law: what is read can be written, and is read back as it was.
pub fn read_can_be_written()
    ensures { ReadCanBeWritten }
{}
