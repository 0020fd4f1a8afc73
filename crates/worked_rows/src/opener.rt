//! Files of a row, which lie in the row's folder.

use pair_io::{Failed, Opener};
use std::alloc::Global;
use std::{fs, rt, str};

/// Opens the files of a folder by their names in it.
#[derive(Drop)]
pub struct RowOpener<'a, R: rt::Files> {
    rt: &'a R,
    alloc: Global,
    folder: &'a str,
}

impl<'a, R: rt::Files> RowOpener<'a, R> {
    pub fn new(rt: &'a R, alloc: Global, folder: &'a str) -> RowOpener<'a, R> {
        RowOpener { rt, alloc, folder }
    }
}

impl<R: rt::Files> Opener for RowOpener<'_, R> {
    ghost use Rattle.std.specs.Prelude.{None};

    type File = R::File;

    ghost content = { λ _ _. None };

    fn open(&self, name: &[u8]) -> Result<R::File, Failed> {
        let Ok(name) = str::from_utf8(name) else {
            return Err(Failed);
        };
        let folder = self.folder;
        let Ok(path) = format!(in self.alloc; "{folder}/{name}") else {
            return Err(Failed);
        };
        match fs::open(self.rt, path.as_str()) {
            Ok(file) => Ok(file),
            Err(_) => Err(Failed),
        }
    }
}
