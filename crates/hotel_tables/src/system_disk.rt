//! A file of the system as a disk.
ghost use Rattle.std.specs.Prelude.{◌≡◌, refl};
ghost use Rattle.std.proofs.Common.{inl};
ghost use Rattle.sqlite_disk.specs.Fair.{fair_if_honest};

use sqlite::File;
use sqlite_disk::{Disk, Tally};
use std::io;

/// A file of the system. It has no type parameters, so that `Disk` is met at it by one impl alone: of a type over
/// `File` itself, which meets it by an impl with parameters, the prover makes no proof of an impl whose trait asks for
/// a disk.
#[derive(Drop)]
pub struct SystemDisk {
    file: File,
}

impl SystemDisk {
    /// This file.
    pub(crate) fn new(file: File) -> SystemDisk
        ensures { result.file ≡ file }
    {
        SystemDisk { file }
    }
}

impl Disk for SystemDisk {
    ghost seen = { λ d. ⟦<File as Disk>⟧.seen d.file };

    ghost may_leave = { λ d. ⟦<File as Disk>⟧.may_leave d.file };

    ghost is_usable = { λ d. ⟦<File as Disk>⟧.is_usable d.file };

    ghost faults = { λ d. ⟦<File as Disk>⟧.faults d.file };

    ghost tally_of = { λ d. ⟦<File as Disk>⟧.tally_of d.file };

    ghost is_clean = { λ d. ⟦<File as Disk>⟧.is_clean d.file };

    ghost key_of = { λ d. ⟦<File as Disk>⟧.key_of d.file };

    ghost is_fair = { λ d. ⟦<File as Disk>⟧.is_fair d.file };

    ghost is_frozen = { λ d. ⟦<File as Disk>⟧.is_frozen d.file };

    ghost is_rotten = { λ d. ⟦<File as Disk>⟧.is_rotten d.file };

    ghost is_mixing = { λ d. ⟦<File as Disk>⟧.is_mixing d.file };

    ghost fair_if_clean = { λ d. Prim.search fair_if_honest };

    ghost seen_may_stay = { λ d. inl refl };

    fn mixes(&self) -> bool {
        self.file.mixes()
    }

    fn key(&self) -> u64 {
        self.file.key()
    }

    fn tally(&self) -> Tally {
        self.file.tally()
    }

    fn may_be_used(&self) -> bool {
        self.file.may_be_used()
    }

    fn len(&mut self) -> io::Result<usize> {
        self.file.len()
    }

    fn read_at(&mut self, at: usize, buf: &mut [u8]) -> io::Result<()> {
        self.file.read_at(at, buf)
    }

    fn read_checked(&mut self, key: u64, want: u64, at: usize, buf: &mut [u8]) -> io::Result<()> {
        self.file.read_checked(key, want, at, buf)
    }

    fn write_at(&mut self, at: usize, bytes: &[u8]) -> io::Result<()> {
        self.file.write_at(at, bytes)
    }

    fn set_len(&mut self, len: usize) -> io::Result<()> {
        self.file.set_len(len)
    }

    fn sync(&mut self) -> io::Result<()> {
        self.file.sync()
    }
}
