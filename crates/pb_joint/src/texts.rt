//! Texts that are read as one program.

ghost use Rattle.std.specs.Prelude.{◌≡◌, ◌<◌, ◌≤◌, ◌++◌, IfErr, IfOk, List, OnOk, Some, length, map, slice_get};
ghost use Rattle.pb_codegen.specs.Compiled.{IsBeforeClaims, IsRefused};
ghost use Rattle.pb_names.specs.View.{resolved_view};
ghost use Rattle.pb_joint.specs.Texts as spec;
ghost use Rattle.pb_joint.specs.Texts.{AreReadAs, AreRefused, IsProgramText, names_in, names_of};
ghost use Rattle.pb_joint.specs.View.{full_name};
ghost use Rattle.pb_tree.specs.Syntax.{ProgramSyntax};
ghost use Rattle.pb_tree.specs.View.{process_view, program_view};

use crate::joining::join;
use pb_base::{Claims, NoMemory};
use pb_claims::infer;
use pb_codegen::CompileFault;
use pb_lexer::lex;
use pb_names::Resolved;
use pb_parser::parse;
use pb_resolver::resolve;
use pb_tree::{Process, Program};
use std::alloc::Global;

/// What a process is called.
#[derive(Drop)]
pub struct FullName {
    pub name: Vec<u8>,
    /// The number of its text, from 1, if there are several texts.
    pub text: Option<usize>,
}

/// The program of texts that run beside one another.
#[derive(Drop)]
pub struct Joint {
    pub program: Resolved<Global>,
    pub claims: Claims,
    /// What each process is called.
    pub names: Vec<FullName>,
}

/// Why texts are not read: the fault of the first of them that is none by itself, or not together with those before it.
#[derive(Drop)]
pub struct TextFault {
    /// The index of the text, from 0.
    pub index: usize,
    pub fault: CompileFault,
}

/// Reads texts as one program: each is to be a program by itself, and all of them together, whether or not the capital
/// is enough for their claims. The error is the first fault, or out of memory.
pub fn read_texts(alloc: Global, texts: &[&[u8]]) -> Result<Joint, TextFault>
    requires { 1 ≤ length texts.now }
    ensures read { IfOk result (λ joint. (trees : List ProgramSyntax)
        × AreReadAs (map (λ text. text.now) texts.now) trees (resolved_view joint.program) joint.claims
        × (map full_name joint.names.items ≡ names_of trees)) }
    ensures named { IfOk result (λ joint. length joint.names.items ≡ length joint.program.processes.items) }
    ensures refused { IfErr result (AreRefused (map (λ text. text.now) texts.now)) }
{
    let several = texts.len() > 1;
    let mut reading = Reading::new(alloc);
    for index in 0..texts.len() {
        if let Err(fault) = reading.add(alloc, several, index + 1, text_at(texts, index)) {
            return Err(TextFault { index, fault });
        }
    }
    match reading.finish(alloc) {
        Ok(joint) => Ok(joint),
        Err(_) => Err(TextFault {
            index: 0,
            fault: CompileFault::Memory,
        }),
    }
}

/// Returns the text of an index.
fn text_at<'t>(texts: &[&'t [u8]], index: usize) -> &'t [u8]
    requires { index < length texts.now }
    ensures { slice_get (map (λ text. text.now) texts.now) index ≡ Some result.now }
{
    texts[index]
}

/// Texts that are read so far.
#[derive(Drop)]
struct Reading {
    /// Their trees, joined.
    whole: Program<Global>,
    /// Its program, if there is a text yet.
    program: Option<Resolved<Global>>,
    /// What its processes are called.
    names: Vec<FullName>,
}

impl Reading {
    ghost use Rattle.std.specs.Prelude.{◌≡◌, ◌≤◌, ◌+◌, ◌++◌, ℕ, [], ◌∷◌, Bool, IfErr, IfOk, List, None, OnOk, length, map, option_map};
    ghost use Rattle.pb_names.specs.View.{resolved_view};
    ghost use Rattle.pb_joint.specs.Texts.{AreReadAs, AreSoFar, HasFault};
    ghost use Rattle.pb_joint.specs.View.{full_name};
    ghost use Rattle.pb_tree.specs.Syntax.{ProgramSyntax};
    ghost use Rattle.pb_tree.specs.View.{program_view};

    /// Returns that no text is read yet.
    fn new(alloc: Global) -> Reading
        ensures whole { program_view result.whole ≡ record { resources = []; processes = [] } }
        ensures program { result.program ≡ None }
        ensures names { result.names.items ≡ [] }
    {
        Reading {
            whole: Program {
                resources: Vec::new(alloc),
                processes: Vec::new(alloc),
            },
            program: None,
            names: Vec::new(alloc),
        }
    }

    /// Reads one more text, which has this number.
    fn add(
        &mut self,
        alloc: Global,
        several: bool,
        number: usize,
        text: &[u8],
    ) -> Result<(), CompileFault>
        requires { (texts : List (List ℕ)) × (trees : List ProgramSyntax)
            × AreSoFar several texts trees (program_view self.old.whole) (option_map resolved_view self.old.program)
            (map full_name self.old.names.items)
            × (number ≡ length trees + 1) }
        ensures added { (texts : List (List ℕ)) (trees : List ProgramSyntax)
            → AreSoFar several texts trees (program_view self.old.whole) (option_map resolved_view self.old.program)
            (map full_name self.old.names.items)
            → number ≡ length trees + 1
            → OnOk result ((tree : ProgramSyntax)
            × AreSoFar several (texts ++ text.now ∷ []) (trees ++ tree ∷ []) (program_view self.new.whole)
            (option_map resolved_view self.new.program) (map full_name self.new.names.items)) }
        ensures fault { (texts : List (List ℕ)) (trees : List ProgramSyntax)
            → AreSoFar several texts trees (program_view self.old.whole) (option_map resolved_view self.old.program)
            (map full_name self.old.names.items)
            → IfErr result (HasFault trees text.now) }
    {
        let tree = read_text(alloc, text)?;
        put_names(alloc, &mut self.names, several, number, &tree.processes)?;
        join(&mut self.whole, tree)?;
        let program = resolve(alloc, &self.whole)?;
        self.program = Some(program);
        Ok(())
    }

    /// Returns the program of all texts, with its claims.
    fn finish(self, alloc: Global) -> Result<Joint, NoMemory>
        requires { (texts : List (List ℕ)) × (trees : List ProgramSyntax) × (several : Bool)
            × AreSoFar several texts trees (program_view self.whole) (option_map resolved_view self.program)
            (map full_name self.names.items)
            × (1 ≤ length texts) }
        ensures read { (texts : List (List ℕ)) (trees : List ProgramSyntax) (several : Bool)
            → AreSoFar several texts trees (program_view self.whole) (option_map resolved_view self.program)
            (map full_name self.names.items)
            → IfOk result (λ joint. AreReadAs texts trees (resolved_view joint.program) joint.claims) }
        ensures names { IfOk result (λ joint. joint.names ≡ self.names) }
        ensures named { IfOk result (λ joint. length joint.names.items ≡ length joint.program.processes.items) }
    {
        let Reading {
            whole,
            program,
            names,
        } = self;
        drop(whole);
        let Some(program) = program else {
            unreachable!()
        };
        let claims = infer(alloc, &program)?;
        Ok(Joint {
            program,
            claims,
            names,
        })
    }
}

/// Returns the tree of a text that is a program by itself.
fn read_text(alloc: Global, text: &[u8]) -> Result<Program<Global>, CompileFault>
    ensures read { IfOk result (λ tree. IsProgramText text.now (program_view tree)) }
    ensures refused { IfErr result (λ fault. IsRefused text.now fault) }
    ensures early { IfErr result IsBeforeClaims }
{
    let tokens = lex(alloc, text)?;
    let tree = parse(alloc, tokens.as_slice())?;
    let program = resolve(alloc, &tree)?;
    drop(program);
    Ok(tree)
}

/// Returns the number of a text, if there are several.
fn number_among(several: bool, number: usize) -> Option<usize>
    ensures { result ≡ spec.number_among several number }
{
    if several { Some(number) } else { None }
}

/// Returns what a process of the text of this number is called.
fn process_name(
    alloc: Global,
    name: &[u8],
    several: bool,
    number: usize,
) -> Result<FullName, NoMemory>
    ensures { IfOk result (λ called. full_name called ≡ record { name = name.now; text = spec.number_among several number }) }
{
    Ok(FullName {
        name: Vec::from_slice(alloc, name)?,
        text: number_among(several, number),
    })
}

/// Adds what the processes of the text of this number are called.
fn put_names(
    alloc: Global,
    names: &mut Vec<FullName>,
    several: bool,
    number: usize,
    processes: &[Process<Global>],
) -> Result<(), NoMemory>
    ensures { OnOk result (map full_name names.new.items
        ≡ map full_name names.old.items ++ names_in several number (map process_view processes.now)) }
{
    for process in processes {
        names.push(process_name(alloc, &process.name.text, several, number)?)?;
    }
    Ok(())
}
