// Bodies of sections and common stanzas, whose imports are numbers, and the parts that they expand to.

ghost use Rattle.std.specs.Prelude.{◌≡◌, ℕ, ◌+◌, ◌<◌, ◌≤◌, if◌then◌else◌, None, List, [], ◌∷◌, ◌++◌, length, get_or, map, flat_map, IfOk, OnOk};
ghost use Rattle.section_syntax.specs.declared.part.SectionPart.{SectionPart};
ghost use Rattle.section_syntax.specs.declared.part.Section.{Section};
ghost use Rattle.stanza_imports.specs.Lines.{first_line, lesser};
ghost use Rattle.stanza_imports.specs.Imports.{under, with_imports_replaced};
ghost use Rattle.stanza_imports.specs.KnownStanzas.{all_replaced, imported};
ghost use Rattle.stanza_imports.specs.Standing.{Adds, Grows, IsBodyOf, IsMore, Knows, ExpandsTo, AreBodiesSoFar, joined, summary_under, bad_in};
ghost use Rattle.common_laws.specs.Small.{capped};
ghost use Rattle.stanza_imports.specs.Bodies.{body_parts, table, weight, summary, total_weight, placed_part, AreBodiesOf};
ghost use Rattle.stanza_imports.specs.Walk.{left_parts, frames_parts, costs, left_cost, frames_cost};
ghost use Rattle.stanza_imports.specs.Parts.{is_named_library, bad_visibility, bad_visibilities};

use crate::name_set::NameSet;
use plan_types::{CompKind, Guard, List, NoMemory, Text};
use section_syntax::{Said, Section, SectionKind, SectionPart};
use std::alloc::Global;

/// A part, or an import of a common stanza by its number.
#[derive(Clone, Copy)]
enum ImportStep<'a> {
    Part(&'a SectionPart),
    Import {
        stanza: usize,
        branches: &'a List<Guard>,
    },
}

/// A section whose imports are numbers.
#[derive(Drop)]
pub struct StanzaBody<'a> {
    steps: Vec<ImportStep<'a>>,
    /// Of its parts with imports replaced.
    summary: Summary,
}

/// Totals of a list of parts.
#[derive(Clone, Copy, Debug)]
pub struct Summary {
    /// The line of the first `visibility` outside of branches that is neither public nor private.
    pub bad_visibility: Option<u32>,
    /// The number of parts and dependencies, at most 2^64 - 1.
    pub weight: u64,
}

impl Summary {
    fn of_none() -> Summary
        ensures { result ≡ summary [] }
    {
        Summary {
            bad_visibility: None,
            weight: 0,
        }
    }

    fn of(part: &SectionPart) -> Summary
        ensures { result ≡ summary (part.now ∷ []) }
    {
        Summary {
            bad_visibility: bad_visibility(part),
            weight: weight(part),
        }
    }

    /// Of these parts followed by more.
    fn joined(self, more: Summary) -> Summary
        ensures { result ≡ joined self more }
    {
        Summary {
            bad_visibility: lesser(self.bad_visibility, more.bad_visibility),
            weight: self.weight.saturating_add(more.weight),
        }
    }

    /// Of the same parts under these branches.
    fn under(self, branches: &[Guard]) -> Summary
        ensures { result ≡ summary_under branches.now self }
    {
        match branches {
            [] => self,
            [_, ..] => Summary {
                bad_visibility: None,
                weight: self.weight,
            },
        }
    }
}

/// The common stanzas so far, by name. A stanza imports only earlier ones.
#[derive(Drop)]
pub struct Stanzas<'a> {
    names: NameSet<'a>,
    bodies: Vec<StanzaBody<'a>>,
}

/// A part, and the conditions of its branches once imports are replaced.
#[derive(Drop)]
pub struct Placed<'a> {
    pub branches: List<Guard>,
    pub part: &'a SectionPart,
}

/// The steps of a body that are left, the conditions they are under, and the stanzas that the body may import.
#[derive(Drop)]
struct Frame<'b, 'a> {
    branches: List<Guard>,
    stanzas: &'b [StanzaBody<'a>],
    steps: &'b [ImportStep<'a>],
}

impl<'a> Stanzas<'a> {
    fn new(alloc: Global) -> Stanzas<'a>
        ensures { Knows [] result }
    {
        Stanzas {
            names: NameSet::new(alloc),
            bodies: Vec::new(alloc),
        }
    }

    /// Adds a common stanza.
    fn add(&mut self, name: &'a Text, body: StanzaBody<'a>) -> Result<(), NoMemory>
        ensures knows { OnOk result (Adds name.now body.entry self.old self.new) }
        ensures more { OnOk result (IsMore self.old.bodies.items self.new.bodies.items) }
    {
        let new = self.names.insert(name.as_str())?;
        if new {
            self.bodies.push(body)?;
        }
        Ok(())
    }

    /// The body of a section after these stanzas.
    fn body(&self, alloc: Global, parts: &'a [SectionPart]) -> Result<StanzaBody<'a>, NoMemory>
        ensures { IfOk result (IsBodyOf self.now parts.now) }
    {
        let mut body = StanzaBody {
            steps: Vec::new(alloc),
            summary: Summary::of_none(),
        };
        for part in parts {
            self.push(&mut body, part)?;
        }
        Ok(body)
    }

    fn push(&self, body: &mut StanzaBody<'a>, part: &'a SectionPart) -> Result<(), NoMemory>
        ensures { OnOk result (Grows self.now body.old body.new (λ known. all_replaced known (part.now ∷ []))) }
    {
        match &part.said {
            Said::Import { names, .. } => {
                self.import(body, names.as_slice(), &part.branches)?;
                Ok(())
            }
            _ => {
                body.push_part(part)?;
                Ok(())
            }
        }
    }

    fn import(
        &self,
        body: &mut StanzaBody<'a>,
        names: &[Text],
        branches: &'a List<Guard>,
    ) -> Result<(), NoMemory>
        ensures { OnOk result (Grows self.now body.old body.new
            (λ known. flat_map (imported known branches.now) names.now)) }
    {
        for name in names {
            self.import_one(body, name, branches)?;
        }
        Ok(())
    }

    // A stanza without parts is skipped, so that each step leads to a part.
    fn import_one(
        &self,
        body: &mut StanzaBody<'a>,
        name: &Text,
        branches: &'a List<Guard>,
    ) -> Result<(), NoMemory>
        ensures { OnOk result (Grows self.now body.old body.new (λ known. imported known branches.now name.now)) }
    {
        let Some(stanza) = self.names.number_of(name.as_str()) else {
            return Ok(());
        };
        let Some(imported) = self.bodies.get(stanza) else {
            return Ok(());
        };
        if imported.steps.as_slice().is_empty() {
            return Ok(());
        }
        body.push_import(stanza, imported, branches)?;
        Ok(())
    }

    /// The parts of a body with its imports replaced.
    pub fn replaced<'b>(
        &'b self,
        alloc: Global,
        body: &'b StanzaBody<'a>,
    ) -> Result<Vec<Placed<'a>>, NoMemory>
        ensures { IfOk result (λ placed. map placed_part placed.items
            ≡ body_parts (table self.now.bodies.items) body.now) }
    {
        let mut placed = Vec::new(alloc);
        let mut frames = Vec::new(alloc);
        frames.push(Frame {
            branches: List::new(alloc),
            stanzas: self.bodies.as_slice(),
            steps: body.steps.as_slice(),
        })?;
        while let Some(frame) = frames.pop() {
            let Frame {
                branches,
                stanzas,
                steps,
            } = frame;
            go_on(alloc, branches, stanzas, steps, &mut frames, &mut placed)?;
        }
        Ok(placed)
    }
}

// The walk has a stack instead of recursion, since stanzas may import one another to any depth. The rest of a body
// waits below the stanza that it imports.
fn go_on<'b, 'a>(
    alloc: Global,
    branches: List<Guard>,
    stanzas: &'b [StanzaBody<'a>],
    steps: &'b [ImportStep<'a>],
    frames: &mut Vec<Frame<'b, 'a>>,
    placed: &mut Vec<Placed<'a>>,
) -> Result<(), NoMemory>
    ensures parts { OnOk result (map placed_part placed.new.items ++ frames_parts frames.new.items
        ≡ map placed_part placed.old.items ++
        (left_parts branches stanzas.now steps.now ++ frames_parts frames.old.items)) }
    ensures cost { OnOk result (frames_cost frames.new.items < frames_cost frames.old.items + left_cost stanzas.now
        steps.now) }
{
    let [step, rest @ ..] = steps else {
        return Ok(());
    };
    match step {
        ImportStep::Part(part) => {
            let inner = joined(alloc, &branches, &part.branches)?;
            placed.push(Placed {
                branches: inner,
                part: *part,
            })?;
            frames.push(Frame {
                branches,
                stanzas,
                steps: rest,
            })?;
            Ok(())
        }
        ImportStep::Import {
            stanza,
            branches: own,
        } => {
            let inner = joined(alloc, &branches, own)?;
            frames.push(Frame {
                branches,
                stanzas,
                steps: rest,
            })?;
            enter(frames, stanzas, *stanza, inner)?;
            Ok(())
        }
    }
}

// A stanza imports only earlier ones, so the walk ends.
fn enter<'b, 'a>(
    frames: &mut Vec<Frame<'b, 'a>>,
    stanzas: &'b [StanzaBody<'a>],
    stanza: usize,
    branches: List<Guard>,
) -> Result<(), NoMemory>
    ensures parts { OnOk result (frames_parts frames.new.items
        ≡ map (under branches) (get_or (table stanzas.now) stanza []) ++ frames_parts frames.old.items) }
    ensures cost { OnOk result (frames_cost frames.new.items ≤ frames_cost frames.old.items +
        (1 + get_or (costs stanzas.now) stanza 0)) }
{
    let Some(body) = stanzas.get(stanza) else {
        return Ok(());
    };
    frames.push(Frame {
        branches,
        stanzas: &stanzas[..stanza],
        steps: body.steps.as_slice(),
    })?;
    Ok(())
}

impl<'a> StanzaBody<'a> {
    fn push_part(&mut self, part: &'a SectionPart) -> Result<(), NoMemory>
        ensures { OnOk result ((stanzas : List StanzaBody) (said : List SectionPart) → ExpandsTo stanzas self.old said
            → ExpandsTo stanzas self.new (said ++ part.now ∷ [])) }
    {
        self.steps.push(ImportStep::Part(part))?;
        self.summary = self.summary.joined(Summary::of(part));
        Ok(())
    }

    fn push_import(
        &mut self,
        stanza: usize,
        imported: &StanzaBody<'a>,
        branches: &'a List<Guard>,
    ) -> Result<(), NoMemory>
        ensures { OnOk result ((stanzas : List StanzaBody) (said parts : List SectionPart)
            → ExpandsTo stanzas self.old said → stanza < length stanzas
            → get_or (table stanzas) stanza [] ≡ parts → imported.now.summary ≡ summary parts
            → ExpandsTo stanzas self.new (said ++ map (under branches.now) parts)) }
    {
        self.steps.push(ImportStep::Import { stanza, branches })?;
        let imported = imported.summary.under(branches.as_slice());
        self.summary = self.summary.joined(imported);
        Ok(())
    }
}

/// One, and one more for each of its dependencies.
fn weight(part: &SectionPart) -> u64
    ensures { result ≡ capped (weight part.now) }
{
    let deps = match &part.said {
        Said::Depends(Ok(deps)) => deps.len(),
        _ => 0,
    };
    (deps as u64).saturating_add(1)
}

fn bad_visibility(part: &SectionPart) -> Option<u32>
    ensures { result ≡ first_line (bad_visibility part.now) }
{
    match part.said {
        Said::Visibility(None) if part.branches.is_empty() => Some(part.line),
        _ => None,
    }
}

/// The lesser line, or the only one.
fn lesser(one: Option<u32>, other: Option<u32>) -> Option<u32>
    ensures { result ≡ lesser one other }
{
    match (one, other) {
        (Some(a), Some(b)) => { if b < a { Some(b) } else { Some(a) } }
        (Some(a), None) => Some(a),
        (None, b) => b,
    }
}

/// The conditions of outer branches, followed by those of inner ones.
fn joined(alloc: Global, outer: &List<Guard>, inner: &List<Guard>) -> Result<List<Guard>, NoMemory>
    ensures { IfOk result (λ conds. conds ≡ outer.now ++ inner.now) }
{
    let mut conds = List::new(alloc);
    push_copies(&mut conds, outer.as_slice())?;
    push_copies(&mut conds, inner.as_slice())?;
    Ok(conds)
}

fn push_copies(conds: &mut List<Guard>, more: &[Guard]) -> Result<(), NoMemory>
    ensures { OnOk result (conds.new ≡ conds.old ++ more.now) }
{
    for cond in more {
        conds.push(cond.copy()?)?;
    }
    Ok(())
}

/// A component's section, and its body.
#[derive(Drop)]
pub struct Built<'a> {
    pub section: &'a Section,
    pub kind: CompKind,
    pub body: StanzaBody<'a>,
}

/// The components of a file, and the stanzas that they may import.
#[derive(Drop)]
pub struct Bodies<'a> {
    pub stanzas: Stanzas<'a>,
    pub built: Vec<Built<'a>>,
}

/// The bodies of the components of a file.
pub fn bodies_of<'a>(alloc: Global, sections: &'a [Section]) -> Result<Bodies<'a>, NoMemory>
    ensures { IfOk result (AreBodiesOf sections.now) }
{
    let mut bodies = Bodies {
        stanzas: Stanzas::new(alloc),
        built: Vec::new(alloc),
    };
    for section in sections {
        add(alloc, section, &mut bodies)?;
    }
    Ok(bodies)
}

fn add<'a>(alloc: Global, section: &'a Section, bodies: &mut Bodies<'a>) -> Result<(), NoMemory>
    ensures { OnOk result ((sections : List Section) → AreBodiesSoFar sections bodies.old
        → AreBodiesSoFar (sections ++ section.now ∷ []) bodies.new) }
{
    let parts = section.parts.as_slice();
    match section.kind {
        SectionKind::Common => {
            let body = bodies.stanzas.body(alloc, parts)?;
            bodies.stanzas.add(&section.name, body)?;
            Ok(())
        }
        SectionKind::Component(kind) => {
            let body = bodies.stanzas.body(alloc, parts)?;
            bodies.built.push(Built {
                section,
                kind,
                body,
            })?;
            Ok(())
        }
        SectionKind::Flag | SectionKind::Setup => Ok(()),
    }
}

/// The line of the first bad visibility of a library with a name of its own.
pub fn first_bad_visibility(bodies: &Bodies) -> Option<u32>
    ensures { (sections : List Section) → AreBodiesOf sections bodies.now
        → result ≡ first_line (flat_map bad_visibilities (with_imports_replaced sections)) }
{
    let mut first = None;
    for one in bodies.built.as_slice() {
        first = lesser(first, one.bad_visibility());
    }
    first
}

impl<'a> Built<'a> {
    /// Whether it is a library with a name of its own.
    pub fn is_named_library(&self) -> bool
        ensures { result ≡ is_named_library self.now.kind self.now.section.now.name }
    {
        self.kind == CompKind::Library && !self.section.name.as_str().is_empty()
    }

    fn bad_visibility(&self) -> Option<u32>
        ensures { result ≡ bad_in self.now }
    {
        if self.is_named_library() {
            self.body.summary.bad_visibility
        } else {
            None
        }
    }
}

/// The number of parts and dependencies of all components, at most 2^64 - 1.
pub fn total_weight(bodies: &Bodies) -> u64
    ensures { (sections : List Section) → AreBodiesOf sections bodies.now
        → result ≡ total_weight (with_imports_replaced sections) }
{
    let mut weight: u64 = 0;
    for one in bodies.built.as_slice() {
        weight = weight.saturating_add(one.body.summary.weight);
    }
    weight
}
