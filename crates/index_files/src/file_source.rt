// The bytes of a file, and the source of a package's file.
ghost use Rattle.std.specs.Prelude.{◌≡◌, ◌≤◌, length, Some, None, IfOk, IfErr};
ghost use Rattle.std.specs.declared.result.Result.TheVariants.{Ok, Err};
ghost use Rattle.plan_types.specs.Refusal.{RefusesAt};
ghost use Rattle.outside_folder.specs.Calls.{IsWithin};
ghost use Rattle.description.specs.FaultOrder.{is_at};
ghost use Rattle.index_files.specs.Sources.{Comes, bytes_in};

use cabal_file::read_source;
use outside_folder::Content;
use plan_types::{Cause, Env, Fault, Source};
use std::alloc::Global;

/// The source of a package's file, or its fault.
pub(crate) fn source_in(alloc: Global, content: &Content, env: &Env) -> Result<Source, Fault>
    requires { IsWithin content.now }
    ensures source { IfOk result (λ source. Comes env.now content.now (Ok source)) }
    ensures fault { IfErr result (RefusesAt (λ line cause. Comes env.now content.now (Err (is_at line cause)))) }
{
    let bytes = bytes_of(content)?;
    read_source(alloc, bytes, env)
}

/// The bytes of a file, or the fault of one that is too large. A missing file counts as empty.
pub(crate) fn bytes_of(content: &Content) -> Result<&[u8], Fault>
    requires { IsWithin content.now }
    ensures bytes { IfOk result (λ bytes. bytes_in content.now ≡ Some bytes.now) }
    ensures limit { IfOk result (λ bytes. length bytes.now ≤ 1048576) }
    ensures fault { IfErr result (RefusesAt (λ line cause.
        (bytes_in content.now ≡ None) × (is_at line cause ≡ is_at 0 Cause.TooLarge))) }
{
    match content {
        Content::Missing => Ok(&[]),
        Content::TooLarge => Err(Fault::At {
            line: 0,
            cause: Cause::TooLarge,
        }),
        Content::Bytes(bytes) => Ok(bytes.as_slice()),
    }
}
