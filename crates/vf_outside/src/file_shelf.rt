ghost use Rattle.std.specs.Prelude.{◌≡◌, ◌≢◌, ◌<◌, ◌≤◌, None, IfOk, IfSome, OnOk, OnErr, vec_len, length};
ghost use Rattle.std.specs.IoError.{error_kind};
ghost use Rattle.vf_outside.specs.Told.{SomeFile};
ghost use Rattle.vf_outside.specs.Faults.{one_more, Rose};
ghost use Rattle.std.specs.declared.io.ErrorKind.TheVariants.{OutOfMemory};
ghost use Rattle.vf_outside.specs.declared.shelf.FetchFault.TheVariants.{Failed, Memory};

use crate::shelf::{FetchFault, Shelf};
use std::alloc::Global;
use std::fs::OpenFile;
use std::io::{ErrorKind, Read};
use std::marker::Model;
use std::rt::Files;
use std::{fs, io};

/// The real files, by their paths. It tells nothing of their bytes, and has one count of faults,
/// which is that of every name and rises at each `Err`.
#[derive(Drop)]
pub struct FileShelf<R: Files + Drop> {
    rt: R,
    faults: u64,
}

impl<R: Files + Drop> Model for FileShelf<R> {
    ghost use Rattle.std.specs.Prelude.{ℕ};

    ghost Value = { ℕ };

    ghost view = { λ s. s.faults };
}

impl<R: Files + Drop> FileShelf<R> {
    /// The files of this runtime.
    pub fn new(rt: R) -> Self
        ensures { result ≡ 0 }
    {
        FileShelf { rt, faults: 0 }
    }
}

impl From<io::Error> for FetchFault {
    ghost from_gives = { λ error fault.
        (error_kind error ≡ OutOfMemory → fault ≡ Memory)
        × (error_kind error ≢ OutOfMemory → fault ≡ Failed) };

    fn from(error: io::Error) -> Self {
        if error.kind() == ErrorKind::OutOfMemory {
            FetchFault::Memory
        } else {
            FetchFault::Failed
        }
    }
}

/// The bytes up to the reader's end, where there are at most `limit` of them. No more than one byte
/// above the limit is read. Where `len` is how many there are, memory is taken once.
fn read_whole<F: Read + Drop>(
    alloc: Global,
    file: F,
    len: u64,
    limit: u64,
) -> Result<Vec<u8>, FetchFault>
    ensures bound { IfOk result (λ bytes. vec_len bytes ≤ limit) }
    ensures bytes { IfOk result (λ bytes. IfSome (F.remaining file) (λ all. bytes.items ≡ all)) }
    ensures too_long { result ≡ Err FetchFault.TooLong
        → IfSome (F.remaining file) (λ all. limit < length all) }
{
    // a byte more than is expected, for the read that finds the end
    let most = limit.saturating_add(1);
    let room = len.saturating_add(1).min(most);
    let mut bytes = Vec::with_capacity(alloc, room as usize)?;
    file.take(most).read_to_end(&mut bytes)?;
    if bytes.len() as u64 > limit {
        return Err(FetchFault::TooLong);
    }
    Ok(bytes)
}

/// How many bytes a file has by what the system tells of it, or 0 where it tells nothing.
fn told_len(file: &impl OpenFile) -> u64 {
    file.metadata().map_or(0, |metadata| metadata.len())
}

/// The bytes of the file at this path, where there are at most `limit` of them.
fn read_file<R: Files>(rt: &R, alloc: Global, name: &str, limit: u64) -> Result<Vec<u8>, FetchFault>
    ensures bound { IfOk result (λ bytes. vec_len bytes ≤ limit) }
    ensures bytes { IfOk result (λ bytes. SomeFile R.File.remaining (λ all. bytes.items ≡ all)) }
    ensures too_long { result ≡ Err FetchFault.TooLong
        → SomeFile R.File.remaining (λ all. limit < length all) }
{
    let file = fs::open(rt, name)?;
    let len = told_len(&file);
    read_whole(alloc, file, len, limit)
}

impl<R: Files + Drop> Shelf for FileShelf<R> {
    ghost told = { λ _ _. None };

    ghost faults = { λ s _. s };

    /// Beside what every shelf says: what is given is all that some opened file has, and the count
    /// is exact.
    fn fetch(&mut self, alloc: Global, name: &str, limit: u64) -> Result<Vec<u8>, FetchFault>
        ensures bound { IfOk result (λ bytes. vec_len bytes ≤ limit) }
        ensures bytes { IfOk result (λ bytes.
            SomeFile R.File.remaining (λ all. bytes.items ≡ all)) }
        ensures too_long { result ≡ Err FetchFault.TooLong
            → SomeFile R.File.remaining (λ all. limit < length all) }
        ensures failed { result ≡ Err FetchFault.Failed → Rose self.old self.new }
        ensures later { self.old ≤ self.new }

        ensures counted { OnErr result (self.new ≡ one_more self.old) }
        ensures kept { OnOk result (self.new ≡ self.old) }
    {
        let result = read_file(&self.rt, alloc, name, limit);
        if result.is_err() {
            self.faults = self.faults.saturating_add(1);
        }
        result
    }
}

#[cfg(test)]
mod tests {
    use super::*;
    use std::test::Fail;
    use std::{env, process};

    /// Gives so many single bytes, and fails then.
    #[derive(Drop)]
    struct Breaking {
        left: u8,
    }

    impl Read for Breaking {
        fn read(&mut self, buf: &mut [u8]) -> io::Result<usize> {
            if self.left == 0 {
                return Err(io::Error::from(ErrorKind::ConnectionReset));
            }
            self.left -= 1;
            Ok(buf.len().min(1))
        }
    }

    #[test]
    fn a_reader_is_read_to_its_end(rt: HostRuntime) -> Result<(), Fail> {
        let alloc = rt.alloc();
        for limit in [3, 4, u64::MAX] {
            let got = read_whole(alloc, b"abc".as_slice(), 3, limit)?;
            assert_eq!(rt; got.as_slice(), b"abc".as_slice(), "within {limit}");
        }
        let long = read_whole(alloc, b"abc".as_slice(), 0, 2).err();
        assert_eq!(rt; long, Some(FetchFault::TooLong));

        // The fault of the third byte isn't met where the limit is passed before.
        let broken = read_whole(alloc, Breaking { left: 2 }, 9, 2).err();
        assert_eq!(rt; broken, Some(FetchFault::Failed));
        let long = read_whole(alloc, Breaking { left: 2 }, 2, 1).err();
        assert_eq!(rt; long, Some(FetchFault::TooLong));
        Ok(())
    }

    #[test]
    fn a_file_is_fetched(rt: HostRuntime) -> Result<(), Fail> {
        let alloc = rt.alloc();
        let folder = env::temp_dir(&rt)?;
        let number = process::id(rt.process());
        let name = format!(in alloc; "{}/vf_outside_{number}", folder.as_str())?;
        fs::write(&rt, name.as_str(), b"written".as_slice())?;

        let mut shelf = FileShelf::new(rt.clone()?);
        let got = shelf.fetch(alloc, name.as_str(), 7)?;
        assert_eq!(rt; got.as_slice(), b"written".as_slice());
        let long = shelf.fetch(alloc, name.as_str(), 6).err();
        assert_eq!(rt; long, Some(FetchFault::TooLong));
        assert_eq!(rt; shelf.faults, 1);

        fs::remove_file(&rt, name.as_str())?;
        let gone = shelf.fetch(alloc, name.as_str(), 7).err();
        assert_eq!(rt; gone, Some(FetchFault::Failed));
        assert_eq!(rt; shelf.faults, 2);
        Ok(())
    }
}
