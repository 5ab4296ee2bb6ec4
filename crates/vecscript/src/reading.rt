//! A reader of scripts whose errors differ from failed allocations of the text that is read.
ghost use Rattle.std.specs.Prelude.{◌≡◌, ◌≢◌, IfErr};
ghost use Rattle.std.specs.Io.{ReadsAtMost};
ghost use Rattle.std.specs.Io.KnownBytes.{ReadConsumes};
ghost use Rattle.std.specs.IoError.{error_kind};
ghost use Rattle.std.specs.declared.io.ErrorKind.TheVariants.{OutOfMemory};
ghost use Rattle.vecscript.specs.Faults.{read_kind};

use std::io;
use std::io::{ErrorKind, Read};

/// A reader that returns no error of the kind `OutOfMemory`.
///
/// If the inner reader returns one, the error becomes one of the kind `Other`. So this kind is left
/// for allocations that fail where the text is collected.
#[derive(Drop)]
pub struct Reading<'a, R> {
    pub reader: &'a mut R,
}

impl<R: Read> Read for Reading<'_, R> {
    ghost remaining = { λ reading. R.remaining reading.reader.now };

    fn read(&mut self, buf: &mut [u8]) -> io::Result<usize>
        ensures bound { ReadsAtMost result buf.new }
        ensures bytes { ReadConsumes (R.remaining self.old.reader.now)
            (R.remaining self.new.reader.now)
            result buf.new }
        ensures own { IfErr result (λ error. error_kind error ≢ OutOfMemory) }
    {
        self.reader.read(buf).map_err(failed_read)
    }
}

// Returns the error of a failed read, which is not of the kind `OutOfMemory`.
fn failed_read(error: io::Error) -> io::Error
    ensures { error_kind result ≡ read_kind (error_kind error) }
{
    match error.kind() {
        ErrorKind::OutOfMemory => ErrorKind::Other.into(),
        _ => error,
    }
}
