// A local package.
ghost use Rattle.std.specs.Prelude.{◌≡◌, IfOk};

use plan_types::{NoMemory, Source, Text, drop_fields};

/// A local package with the path of its file.
#[derive(Debug)]
pub struct Local {
    pub path: Text,
    pub source: Source,
}

impl Drop for Local {
    fn drop(self) {
        drop_fields!(self; path, source);
    }
}

impl Local {
    /// A source with a copy of the path.
    pub(crate) fn at(path: &Text, source: Source) -> Result<Local, NoMemory>
        ensures { IfOk result (λ local. local ≡ record { path = path.now; source = source }) }
    {
        let path = path.copy()?;
        Ok(Local { path, source })
    }

    /// The path of its file.
    pub(crate) fn into_path(self) -> Text
        ensures { result ≡ self.path }
    {
        let Local {
            path,
            source: _source,
        } = self;
        path
    }

    /// The source of its file.
    pub fn into_source(self) -> Source
        ensures { result ≡ self.source }
    {
        let Local {
            path: _path,
            source,
        } = self;
        source
    }
}
