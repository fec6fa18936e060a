// Ranges of versions, and the cabal-versions of files.
ghost use Rattle.std.specs.Prelude.{◌≡◌, [], IfOk};
ghost use Rattle.plan_types.specs.declared.range.Range.TheVariants.{Both, Either};
ghost use Rattle.plan_types.specs.Range.{rebuilt};
ghost use Rattle.plan_types.specs.Format.{is_old, has_bare_libraries};

use crate::{Boxed, NoMemory, Version};
use std::alloc::Global;

/// The cabal-version of a file, which decides the syntax and meaning of its texts.
#[derive(Clone, Copy, Debug, PartialEq, Eq)]
pub enum Spec {
    V2_4,
    V3_0,
    V3_4,
}

impl Spec {
    /// Before 3.0, which brought sets of versions, libraries by name, `visibility` and imports in branches.
    pub fn is_old(self) -> bool
        ensures { result ≡ is_old self }
    {
        match self {
            Spec::V2_4 => true,
            Spec::V3_0 | Spec::V3_4 => false,
        }
    }

    /// Whether the bare name of an own library means that library and not a package. This was so before 3.4.
    pub fn has_bare_libraries(self) -> bool
        ensures { result ≡ has_bare_libraries self }
    {
        match self {
            Spec::V2_4 | Spec::V3_0 => true,
            Spec::V3_4 => false,
        }
    }
}

/// The syntax tree of a set of versions.
#[derive(Debug)]
pub enum Range {
    /// `-any`
    Any,
    /// `-none`
    Nothing,
    /// `==1.2`
    Equal(Version),
    /// `==1.2.*`
    Prefix(Version),
    /// `>=1.2`
    AtLeast(Version),
    /// `>1.2`
    Above(Version),
    /// `<=1.2`
    AtMost(Version),
    /// `<1.2`
    Below(Version),
    /// `^>=1.2`
    Major(Version),
    /// `&&`
    Both(Boxed<Range>, Boxed<Range>),
    /// `||`
    Either(Boxed<Range>, Boxed<Range>),
}

/// An operator and its right operand, while the left operand is copied.
#[derive(Clone, Copy)]
pub enum Joined<'a> {
    Both(&'a Range),
    Either(&'a Range),
}

impl Range {
    pub fn copy(&self, alloc: Global) -> Result<Range, NoMemory>
        ensures { IfOk result (λ copied. copied ≡ self.now) }
    {
        let mut waiting = Vec::new(alloc);
        let mut copied = copy_first(alloc, &mut waiting, self)?;
        while let Some(joined) = waiting.pop() {
            match joined {
                Joined::Both(right) => copied = both(alloc, copied, right.copy(alloc)?)?,
                Joined::Either(right) => copied = either(alloc, copied, right.copy(alloc)?)?,
            }
        }
        Ok(copied)
    }
}

// Copies the leftmost operand and pushes the right ones. A loop, as left operands may nest as deep as a file is long.
fn copy_first<'a>(
    alloc: Global,
    waiting: &mut Vec<Joined<'a>>,
    range: &'a Range,
) -> Result<Range, NoMemory>
    requires { waiting.old.items ≡ [] }
    ensures { IfOk result (λ copied. rebuilt waiting.new.items copied ≡ range.now) }
{
    let mut left = range;
    loop {
        match left {
            Range::Any => return Ok(Range::Any),
            Range::Nothing => return Ok(Range::Nothing),
            Range::Equal(x) => return Ok(Range::Equal(x.copy(alloc)?)),
            Range::Prefix(x) => return Ok(Range::Prefix(x.copy(alloc)?)),
            Range::AtLeast(x) => return Ok(Range::AtLeast(x.copy(alloc)?)),
            Range::Above(x) => return Ok(Range::Above(x.copy(alloc)?)),
            Range::AtMost(x) => return Ok(Range::AtMost(x.copy(alloc)?)),
            Range::Below(x) => return Ok(Range::Below(x.copy(alloc)?)),
            Range::Major(x) => return Ok(Range::Major(x.copy(alloc)?)),
            Range::Both(l, r) => {
                waiting.push(Joined::Both(r.get()))?;
                left = l.get();
            }
            Range::Either(l, r) => {
                waiting.push(Joined::Either(r.get()))?;
                left = l.get();
            }
        }
    }
}

fn both(alloc: Global, left: Range, right: Range) -> Result<Range, NoMemory>
    ensures { IfOk result (λ range. range ≡ Both left right) }
{
    let left = Boxed::new(alloc, left)?;
    let right = Boxed::new(alloc, right)?;
    Ok(Range::Both(left, right))
}

fn either(alloc: Global, left: Range, right: Range) -> Result<Range, NoMemory>
    ensures { IfOk result (λ range. range ≡ Either left right) }
{
    let left = Boxed::new(alloc, left)?;
    let right = Boxed::new(alloc, right)?;
    Ok(Range::Either(left, right))
}

// Chains are left-associative, so left operands may nest as deep as a file is long: a loop, not recursion.
impl Drop for Range {
    fn drop(mut self) {
        loop {
            match self {
                Range::Any => return,
                Range::Nothing => return,
                Range::Equal(_) => return,
                Range::Prefix(_) => return,
                Range::AtLeast(_) => return,
                Range::Above(_) => return,
                Range::AtMost(_) => return,
                Range::Below(_) => return,
                Range::Major(_) => return,
                Range::Both(left, right) | Range::Either(left, right) => {
                    drop(right.into_inner());
                    self = left.into_inner();
                }
            }
        }
    }
}
