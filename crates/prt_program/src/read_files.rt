//! Files that are only read.
ghost use Rattle.std.specs.Prelude.{IfOk};

use std::alloc::Global;
use std::fs::{self, File, Files};
use std::io::{self, Read};

/// Opens files to read them. It makes, changes and removes none.
pub trait ReadFiles {
    ghost use Rattle.std.specs.Prelude.{List, ℕ};

    /// An open file.
    type Opened: Read + Drop;

    /// That an opening of the file at a path may give this.
    ghost opens: { Self → List ℕ → Self.Opened → Type 0 };

    /// Opens the file at a path.
    ///
    /// # Errors
    ///
    /// The system's.
    fn open_to_read(&self, path: &str) -> io::Result<Self::Opened>
        ensures { IfOk result (opens self.now path.now) };

    /// Reads the names in the folder at a path, which ends with a slash. A NUL ends each name.
    ///
    /// # Errors
    ///
    /// The system's, and `OutOfMemory`.
    fn read_names(&self, alloc: Global, folder: &str) -> io::Result<Vec<u8>>;
}

impl ReadFiles for HostRuntime {
    ghost use Rattle.std.specs.Prelude.{⊤};

    type Opened = File;

    // Which bytes a path has is not known.
    ghost opens = { λ _ _ _. ⊤ };

    fn open_to_read(&self, path: &str) -> io::Result<File> {
        fs::open(self, path)
    }

    fn read_names(&self, alloc: Global, folder: &str) -> io::Result<Vec<u8>> {
        let mut names = Vec::new(alloc);
        self.open_dir(folder)?.read_to_end(&mut names)?;
        Ok(names)
    }
}
