//! The words, files, databases, ports and the clock of the system. No clause can say what they give, so the functions
//! here do no more than ask; of an opening they say that it is one of some database's file.

ghost use Rattle.std.specs.Prelude.{◌≡◌, IfErr};
ghost use Rattle.hotel_program.specs.declared.faults.Fault.TheVariants as fault;

use hotel_program::{
    ClockedListener, Databases, Fault, FileName, SEED_BYTES, Surroundings, audit_file_in, seed_in,
};
use hotel_streams::IoCalls;
use hotel_tables::{FileFault, PathDisk, TableBooks, close_file, open_file};
use sqlite::FileStore;
use std::alloc::Global;
use std::fs::{self, File};
use std::marker::PhantomData;
use std::net::{Ipv4Addr, TcpListener};
use std::{env, io};

/// The file of random bytes, from which codes are drawn where no seed file is named.
const RANDOM_BYTES: &str = "/dev/urandom";

/// The words after the program's name.
pub fn words(rt: &HostRuntime) -> io::Result<Vec<String>> {
    let mut words = env::args(rt)?;
    words.next();
    Ok(words.collect(rt.alloc())?)
}

/// The system that the program runs on, and the disks `D` that its databases are on.
#[derive(Drop)]
pub struct Host<D: PathDisk> {
    rt: HostRuntime,
    disk: PhantomData<D>,
}

impl<D: PathDisk> Host<D> {
    /// The system of this runtime.
    pub fn new(rt: &HostRuntime) -> Host<D> {
        Host {
            rt: *rt,
            disk: PhantomData,
        }
    }

    /// Opens a file to read it.
    fn open(&self, path: &str) -> Result<File, Fault>
        ensures { IfErr result (λ why. why ≡ fault.File) }
    {
        match fs::open(&self.rt, path) {
            Ok(file) => Ok(file),
            Err(_) => Err(Fault::File),
        }
    }
}

impl<D: PathDisk> Surroundings for Host<D> {
    type Port = ClockedListener<HostRuntime>;

    ghost seed_read = { λ _ _ _ _. Unit {0} };

    ghost file_read = { λ _ _ _ _. Unit {0} };

    ghost port_bound = { λ _ _ _ _. Unit {0} };

    fn read_seed(
        &mut self,
        alloc: Global,
        name: Option<&FileName>,
    ) -> Result<[u8; SEED_BYTES], Fault> {
        let path = match name {
            Some(name) => name.as_str(),
            None => RANDOM_BYTES,
        };
        let Ok(mut file) = self.open(path) else {
            return Err(Fault::Seed);
        };
        seed_in(alloc, &mut file, &mut IoCalls::none())
    }

    fn read_file(&mut self, alloc: Global, name: &FileName) -> Result<Vec<u8>, Fault> {
        let mut file = self.open(name.as_str())?;
        audit_file_in(alloc, &mut file, &mut IoCalls::none())
    }

    fn listen(&mut self, port: u16) -> Result<ClockedListener<HostRuntime>, Fault> {
        match TcpListener::bind(&self.rt, (Ipv4Addr::LOCALHOST, port)) {
            Ok(listener) => Ok(ClockedListener::new(listener, self.rt)),
            Err(_) => Err(Fault::Port),
        }
    }
}

impl<D: PathDisk> Databases<TableBooks<FileStore<D>>> for Host<D> {
    ghost use Rattle.std.specs.Prelude.{IfOk, IfErr};
    ghost use Rattle.hotel_tables.specs.Files.{AreOfOpening, IsOfOpening};

    ghost books_opened = { λ _ _ opened _. IfOk opened (λ b. AreOfOpening D.PathDisk.is_part b.conn)
        × IfErr opened (IsOfOpening D.Disk D.PathDisk.is_part) };

    ghost books_closed = { λ _ _ _. Unit {0} };

    fn open_books(
        &mut self,
        _alloc: Global,
        name: &FileName,
    ) -> Result<TableBooks<FileStore<D>>, FileFault> {
        open_file(&self.rt, name.as_str())
    }

    fn close_books(&mut self, books: TableBooks<FileStore<D>>) {
        // A close that failed loses nothing: the log keeps what it did not copy, and the next opening finds it there.
        let _ = close_file(books);
    }
}
