// Calls on a folder of the test's own, and their answers.
use crate::calls::answered;
use outside_folder::{Folder, RealFolder, RealSink, write_all};
use plan_types::Text;
use std::alloc::Global;
use std::os::unix::fs::symlink;
use std::test::Fail;
use std::{env, fs, process};

const CALLS: &str = "\
list ./ => names Z a b/ d e
list ./b => names c empty/
list ./b/empty => names
list ./x => none
list ./a => none
read ./b/c => bytes the bytes
read ./a => 1048576 bytes
read ./Z => TooLarge
read ./x => none
read ./b/x => none
read ./a/x => none
read ./b => none
read ./d => none
read ./e => none
list ./e => none
read ./nnnnnnnnnnnnnnnnnnnnnnnnnnnnnnnnnnnnnnnnnnnnnnnnnnnnnnnnnnnnnnnnnnnnnnnnnnnnnnnnnnnnnnnnnnnnnnnnnnnnnnnnnnnnnnnnnnnnnnnnnnnnnnnnnnnnnnnnnnnnnnnnnnnnnnnnnnnnnnnnnnnnnnnnnnnnnnnnnnnnnnnnnnnnnnnnnnnnnnnnnnnnnnnnnnnnnnnnnnnnnnnnnnnnnnnnnnnnnnnnnnnnnnnnnnnnnnnn => none
list ./nnnnnnnnnnnnnnnnnnnnnnnnnnnnnnnnnnnnnnnnnnnnnnnnnnnnnnnnnnnnnnnnnnnnnnnnnnnnnnnnnnnnnnnnnnnnnnnnnnnnnnnnnnnnnnnnnnnnnnnnnnnnnnnnnnnnnnnnnnnnnnnnnnnnnnnnnnnnnnnnnnnnnnnnnnnnnnnnnnnnnnnnnnnnnnnnnnnnnnnnnnnnnnnnnnnnnnnnnnnnnnnnnnnnnnnnnnnnnnnnnnnnnnnnnnnnnnnn/a => none
read ./b/c\0 => none
list ./b\0/empty => none
";

// Two directories, three files, a dangling link, and a link to itself. One file has as many bytes as the limit, one
// has one more. No file can have a name of 256 letters.
fn made(rt: &HostRuntime) -> Result<Text, Fail> {
    let name = format!(in rt.alloc(); "call-tables-{}", process::id(rt.process()))?;
    let root = env::temp_dir(rt)?.join(rt.alloc(), name.as_str())?;
    fs::create_dir_all(rt, root.join(rt.alloc(), "b/empty")?.as_path())?;
    fs::write(rt, root.join(rt.alloc(), "b/c")?.as_path(), "the bytes")?;
    let bytes = vec![in rt.alloc(); 7u8; 1_048_577]?;
    fs::write(rt, root.join(rt.alloc(), "a")?.as_path(), &bytes[1..])?;
    fs::write(rt, root.join(rt.alloc(), "Z")?.as_path(), &bytes[..])?;
    symlink(rt, "nowhere", root.join(rt.alloc(), "d")?.as_str())?;
    symlink(rt, "e", root.join(rt.alloc(), "e")?.as_str())?;
    Ok(Text::from_str(rt.alloc(), root.as_str())?)
}

// The calls with a wrong answer, and this answer.
fn others<F: Folder>(alloc: Global, folder: &mut F) -> Result<String, Fail> {
    let mut others = String::new(alloc);
    for line in CALLS.lines() {
        let (call, wanted) = line.split_once(" => ").ok_or("no answer")?;
        let found = answered(alloc, folder, call)?;
        if found.as_str() != wanted {
            write!(&mut others, "{call} => {found}\n")?;
        }
    }
    Ok(others)
}

// A call on a path that is longer than any that the system takes, though each of its names is short enough.
fn call_on_long_path(alloc: Global) -> Result<String, Fail> {
    let mut call = String::new(alloc);
    write!(&mut call, "read .")?;
    for _ in 0..100 {
        write!(
            &mut call,
            "/nnnnnnnnnnnnnnnnnnnnnnnnnnnnnnnnnnnnnnnnnnnnnnnnnn"
        )?;
    }
    Ok(call)
}

fn is_printed(rt: &HostRuntime, text: &str) -> bool {
    let mut sink = RealSink::new(rt);
    write_all(&mut sink, text.as_bytes()).is_ok()
}

#[test]
fn a_folder_and_standard_output(rt: HostRuntime) -> Result<(), Fail> {
    let alloc = rt.alloc();
    let root = made(&rt)?;
    let mut folder = RealFolder::new(&rt, root.copy()?);
    let found = others(alloc, &mut folder)?;
    let long = call_on_long_path(alloc)?;
    fs::remove_dir_all(&rt, root.as_str())?;
    assert_eq!(rt; found.as_str(), "");
    assert_eq!(rt;
        answered(alloc, &mut folder, long.as_str())?.as_str(),
        "Failed"
    );
    assert_eq!(rt; answered(alloc, &mut folder, "list ./")?.as_str(), "Failed");
    assert!(rt; is_printed(&rt, ""));
    assert!(rt; is_printed(&rt, "a line of the test\n"));
    Ok(())
}
