//! A file of the system, and what the system's answers tell of its bytes. Nothing but the calls here writes it or cuts it.

ghost use Rattle.std.specs.Prelude.{◌≡◌, [], length, IfErr, IfOk, Some, string_bytes};
ghost use Rattle.dspec_ctf_sink.specs.Faults.{IsWriteFault};

use crate::fault::FolderFault;
use crate::file_log::{FileLog, LogEntry};
use crate::held::Cuttable;
use crate::made::make_file;
use std::fs::File;
use std::io;
use std::io::Write;

/// A file that had no bytes when it was made, the path at which it was, and how many bytes it has by now.
#[derive(Drop)]
pub(crate) struct CountedFile {
    path: String,
    file: File,
    size: u64,
    told: FileLog,
    ghost long: { length told.bytes ≡ size },
}

impl CountedFile {
    /// Makes the file of that path, which has no bytes.
    pub(crate) fn make(rt: &HostRuntime, path: String) -> Result<CountedFile, FolderFault>
        ensures empty { IfOk result (λ file. ⟦<CountedFile as Write>⟧.contents file ≡ Some []) }
        ensures path { IfOk result (λ file. ⟦<CountedFile as Cuttable>⟧.path file ≡ string_bytes path) }
        ensures fault { IfErr result IsWriteFault }
    {
        let file = match make_file(rt, path.as_str()) {
            Ok(file) => file,
            Err(fault) => return Err(fault),
        };
        Ok(CountedFile {
            path,
            file,
            size: 0,
            told: FileLog::none(),
        })
    }
}

/// Its contents are what the system answered: of each write so many of its bytes, and of a cut those before it.
impl Write for CountedFile {
    ghost contents = { λ i. Some i.told.bytes };

    fn write(&mut self, buf: &[u8]) -> io::Result<usize> {
        if self.size.checked_add(buf.len() as u64).is_none() {
            return Err(io::Error::from(io::ErrorKind::FileTooLarge));
        }
        let count = self.file.write(buf)?;
        self.told = self.told.then(&LogEntry::Appended(&buf[..count]));
        self.size += count as u64;
        Ok(count)
    }

    fn flush(&mut self) -> io::Result<()> {
        self.file.flush()
    }
}

impl Cuttable for CountedFile {
    ghost path = { λ i. string_bytes i.path };

    fn size(&self) -> io::Result<u64> {
        Ok(self.size)
    }

    fn cut(&mut self, length: u64) -> io::Result<()> {
        let left = length.min(self.size);
        self.file.set_len(left)?;
        self.told = self.told.then(&LogEntry::Left(left));
        self.size = left;
        Ok(())
    }
}
