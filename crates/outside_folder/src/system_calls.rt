// The calls of the system. Their answers aren't observable, so these calls are trusted.
ghost use Rattle.std.specs.Prelude.{List, Result, ℕ};
ghost use Rattle.std.specs.Io.{ReadsAtMost, WritesAtMost};
ghost use Rattle.std.specs.Io.KnownBytes.{WriteAppends};
ghost use Rattle.std.specs.Path.{path_bytes};
ghost use Rattle.std.specs.declared.alloc.Global.{Global};
ghost use Rattle.std.specs.declared.fs.ReadDir.{ReadDir};
ghost use Rattle.std.specs.declared.fs.Metadata.{Metadata};
ghost use Rattle.std.specs.declared.io.Error.{Error};
ghost use Rattle.outside_folder.specs.RealFolder.{bytes_given};

use std::alloc::Global;
use std::fs::{self, Metadata, ReadDir};
use std::io::{self, Read, Write};
use std::path::Path;
use std::rt::Files;

/// The calls on paths and on opened files, each with its possible answers.
pub trait SystemCalls: Files + AllocGlobal + Clone + Drop {
    ghost opens: { Self → List ℕ → Result Self.File Error → Type 0 };

    ghost lists: { Self → List ℕ → Result (ReadDir Self Global Self.File Self.Dir) Error → Type 0 };

    ghost finds: { Self → List ℕ → Result Metadata Error → Type 0 };

    /// The possible results of a read: some bytes (none at the end of the file), or an error.
    ghost gives: { Self → Self.File → Result (List ℕ) Error → Self.File → Type 0 };

    /// Opens a file.
    fn open_at(&self, path: &str) -> io::Result<Self::File>
        ensures { opens self.now path.now result };

    /// Opens a directory.
    fn entries_at(&self, path: &str) -> io::Result<ReadDir<Self, Global>>
        ensures { lists self.now path.now result };

    /// Gets the metadata of what is at a path.
    fn metadata_at(&self, path: Path<'_>) -> io::Result<Metadata>
        ensures { finds self.now (path_bytes path.entry) result };

    /// Reads some bytes of a file into the front of a buffer, and returns their number.
    fn read_some(&self, file: &mut Self::File, buffer: &mut [u8]) -> io::Result<usize>
        ensures bound { ReadsAtMost result buffer.new }
        ensures observed { gives self.now file.old (bytes_given result buffer.new) file.new };
}

impl<R: Files + AllocGlobal + Clone + Drop> SystemCalls for R {
    ghost opens = { λ _ _ _. Unit {0} };

    ghost lists = { λ _ _ _. Unit {0} };

    ghost finds = { λ _ _ _. Unit {0} };

    ghost gives = { λ _ _ _ _. Unit {0} };

    fn open_at(&self, path: &str) -> io::Result<R::File> {
        fs::open(self, path)
    }

    fn entries_at(&self, path: &str) -> io::Result<ReadDir<R, Global>> {
        fs::read_dir(self, path)
    }

    fn metadata_at(&self, path: Path<'_>) -> io::Result<Metadata> {
        fs::metadata(self, path)
    }

    fn read_some(&self, file: &mut R::File, buffer: &mut [u8]) -> io::Result<usize> {
        file.read(buffer)
    }
}

/// A writer, with its possible answers to a piece.
pub trait WriterCalls: Write {
    ghost writes: { Self → List ℕ → Result ℕ Error → Self → Type 0 };

    /// Writes some bytes from the front of a piece, and returns their number.
    fn write_some(&mut self, piece: &[u8]) -> io::Result<usize>
        ensures bound { WritesAtMost result piece.now }
        ensures bytes { WriteAppends (Self.contents self.old) (Self.contents self.new) result piece.now }
        ensures observed { writes self.old piece.now result self.new };
}

impl<W: Write> WriterCalls for W {
    ghost writes = { λ _ _ _ _. Unit {0} };

    fn write_some(&mut self, piece: &[u8]) -> io::Result<usize> {
        self.write(piece)
    }
}
