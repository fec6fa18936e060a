// The value of a condition under a partial assignment of flags.
ghost use Rattle.std.specs.Prelude.{◌≡◌, true};
ghost use Rattle.conditionals.specs.Value.{value, tri_of, flag_in, flag_value, answer, each_once};

use crate::environment::{is_compiler, is_processor, is_system};
use plan_types::{Cond, Env, FlagSet, List, Text};

/// The value of a condition under a partial assignment of flags.
#[derive(Clone, Copy, Debug, PartialEq, Eq)]
pub enum Tri {
    Yes,
    No,
    /// It depends on a flag that isn't set.
    Unknown,
}

/// The value of a condition, evaluated from left to right.
pub fn eval(cond: &Cond, env: &Env, flags: &List<FlagSet>) -> Tri
    requires { each_once flags.now ≡ true }
    ensures { result ≡ value env.now (flag_in flags.now) cond.now }
{
    // The value of the whole if the rest of the left side is Yes, and if it is No. If it is Unknown, so is the whole.
    let mut if_yes = Tri::Yes;
    let mut if_no = Tri::No;
    let mut left = cond;
    loop {
        match left {
            Cond::Always => return if_yes,
            Cond::Never => return if_no,
            Cond::Flag(name) => return answer(if_yes, if_no, setting(flags, name)),
            Cond::Os(name) => return answer(if_yes, if_no, known(is_system(env, name))),
            Cond::Arch(name) => return answer(if_yes, if_no, known(is_processor(env, name))),
            Cond::Impl(name, range) => {
                return answer(if_yes, if_no, known(is_compiler(env, name, range)));
            }
            Cond::Not(inner) => {
                (if_yes, if_no) = (if_no, if_yes);
                left = inner.get();
            }
            Cond::And(l, r) => {
                if_yes = answer(if_yes, if_no, eval(r.get(), env, flags));
                left = l.get();
            }
            Cond::Or(l, r) => {
                if_no = answer(if_yes, if_no, eval(r.get(), env, flags));
                left = l.get();
            }
        }
    }
}

fn answer(if_yes: Tri, if_no: Tri, left: Tri) -> Tri
    ensures { result ≡ answer if_yes if_no left }
{
    match left {
        Tri::Yes => if_yes,
        Tri::No => if_no,
        Tri::Unknown => Tri::Unknown,
    }
}

fn known(holds: bool) -> Tri
    ensures { result ≡ tri_of holds }
{
    if holds { Tri::Yes } else { Tri::No }
}

fn setting(flags: &List<FlagSet>, name: &Text) -> Tri
    ensures { result ≡ flag_value (flag_in flags.now name.now) }
{
    for flag in flags.as_slice() {
        if flag.name == *name {
            return known(flag.on);
        }
    }
    Tri::Unknown
}
