// The sink's room, the most bytes of a write, and the write that fails. The answer is whether both lines are written,
// and the bytes in the sink, with `;` for the end of a line.
use outside_folder::{MemSink, write_all};
use plan_types::List;
use std::alloc::Global;
use std::test::Fail;

pub(crate) const CASES: &str = "\
100 100 9 => all [plan;choose main 1 local;]
26 1 27 => all [plan;choose main 1 local;]
100 10 3 => cut [plan;choose main 1 l]
100 10 1 => cut []
7 100 9 => cut [plan;ch]
100 0 9 => cut []
";

// The text to write.
const LINES: &str = "plan\nchoose main 1 local\n";

fn sink(alloc: Global, line: &str) -> Result<MemSink, Fail> {
    let (room, rest) = line.split_once(' ').ok_or("no room")?;
    let (most, failing) = rest.split_once(' ').ok_or("no most")?;
    let fail_at = List::from_vec([failing.parse::<u64>()?].to_vec(alloc)?);
    let room = room.parse::<usize>()?;
    let most = most.parse::<usize>()?;
    Ok(MemSink::new(alloc, room, most, fail_at)?)
}

fn shown(alloc: Global, whole: bool, bytes: &[u8]) -> Result<String, Fail> {
    let written = if whole { "all" } else { "cut" };
    let left = str::from_utf8(bytes)?.replace(alloc, "\n", ";")?;
    Ok(format!(in alloc; "{written} [{left}]")?)
}

pub(crate) fn answer(alloc: Global, case: &str) -> Result<String, Fail> {
    let mut sink = sink(alloc, case)?;
    let written = write_all(&mut sink, LINES.as_bytes());
    shown(alloc, written.is_ok(), sink.bytes())
}
