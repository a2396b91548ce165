//! Trees that are read from texts, and trees that are put together from tables.

use pb_base::{BinaryOp, UnaryOp};
use pb_lexer::lex;
use pb_parser::parse;
use pb_tree::{Demand, Expr, Name, Number, Process, Program, Resource, Stmt};
use std::alloc::{Allocator, Global};

/// Returns the tree of a text.
pub fn read(alloc: Global, text: &[u8]) -> Option<Program<Global>> {
    let tokens = lex(alloc, text).ok()?;
    parse(alloc, tokens.as_slice()).ok()
}

/// A part of a program, which comes after the parts that it is made of. The line of a statement comes
/// first; a name or a number is followed by its place.
#[derive(Clone, Copy)]
pub enum Part {
    Number(i64, usize),
    Variable(&'static [u8], usize),
    Unary(UnaryOp),
    Binary(BinaryOp),
    /// Begins a list, which takes the statements after it.
    List,
    Assign(u32, &'static [u8], usize),
    Print(u32),
    /// Takes the last two lists.
    If(u32),
    /// Takes the last list.
    While(u32),
    Demand(i64, usize, &'static [u8], usize),
    /// Takes the last list, and the demands since the last hold.
    Hold(u32),
    /// Makes an arm of the last list.
    Arm,
    /// Takes the arms since the last parbegin.
    Parbegin(u32),
    Integer(&'static [u8], usize),
    /// Takes the last list, and the integers since the last process.
    Process(&'static [u8], usize),
    Resource(&'static [u8], usize, i64, usize),
}

/// The parts that no other has taken.
#[derive(Drop)]
struct Draft<A: Allocator + Copy> {
    alloc: A,
    exprs: Vec<Expr<A>, A>,
    lists: Vec<Vec<Stmt<A>, A>, A>,
    demands: Vec<Demand<A>, A>,
    arms: Vec<Vec<Stmt<A>, A>, A>,
    integers: Vec<Name<A>, A>,
    program: Program<A>,
}

fn name<A: Allocator + Copy>(alloc: A, text: &[u8], at: usize) -> Option<Name<A>> {
    match Vec::from_slice(alloc, text) {
        Ok(text) => Some(Name { text, at }),
        Err(_) => None,
    }
}

impl<A: Allocator + Copy> Draft<A> {
    fn new(alloc: A) -> Draft<A> {
        Draft {
            alloc,
            exprs: Vec::new(alloc),
            lists: Vec::new(alloc),
            demands: Vec::new(alloc),
            arms: Vec::new(alloc),
            integers: Vec::new(alloc),
            program: Program {
                resources: Vec::new(alloc),
                processes: Vec::new(alloc),
            },
        }
    }

    fn add_variable(&mut self, text: &[u8], at: usize) -> Option<()> {
        let name = name(self.alloc, text, at)?;
        self.exprs.push(Expr::Variable(name)).ok()
    }

    /// Takes the last expression, into a box.
    fn operand(&mut self) -> Option<Box<Expr<A>, A>> {
        let operand = self.exprs.pop()?;
        Box::new(self.alloc, operand).ok()
    }

    fn add_unary(&mut self, op: UnaryOp) -> Option<()> {
        let operand = self.operand()?;
        self.exprs.push(Expr::Unary(op, operand)).ok()
    }

    fn add_binary(&mut self, op: BinaryOp) -> Option<()> {
        let right = self.operand()?;
        let left = self.operand()?;
        self.exprs.push(Expr::Binary(op, left, right)).ok()
    }

    /// Adds a statement to the last list.
    fn add(&mut self, stmt: Stmt<A>) -> Option<()> {
        match self.lists.last_mut() {
            Some(list) => list.push(stmt).ok(),
            None => None,
        }
    }

    fn add_assign(&mut self, line: u32, text: &[u8], at: usize) -> Option<()> {
        let value = self.exprs.pop()?;
        let target = name(self.alloc, text, at)?;
        self.add(Stmt::Assign {
            line,
            target,
            value,
        })
    }

    fn add_print(&mut self, line: u32) -> Option<()> {
        let value = self.exprs.pop()?;
        self.add(Stmt::Print { line, value })
    }

    fn add_if(&mut self, line: u32) -> Option<()> {
        let test = self.exprs.pop()?;
        let on_false = self.lists.pop()?;
        let on_true = self.lists.pop()?;
        self.add(Stmt::If {
            line,
            test,
            on_true,
            on_false,
        })
    }

    fn add_while(&mut self, line: u32) -> Option<()> {
        let test = self.exprs.pop()?;
        let body = self.lists.pop()?;
        self.add(Stmt::While { line, test, body })
    }

    fn add_demand(&mut self, amount: Number, text: &[u8], at: usize) -> Option<()> {
        let resource = name(self.alloc, text, at)?;
        self.demands.push(Demand { amount, resource }).ok()
    }

    fn add_hold(&mut self, line: u32) -> Option<()> {
        let body = self.lists.pop()?;
        let demands = std::mem::replace(&mut self.demands, Vec::new(self.alloc));
        self.add(Stmt::Hold {
            line,
            demands,
            body,
        })
    }

    fn add_arm(&mut self) -> Option<()> {
        let arm = self.lists.pop()?;
        self.arms.push(arm).ok()
    }

    fn add_parbegin(&mut self, line: u32) -> Option<()> {
        let arms = std::mem::replace(&mut self.arms, Vec::new(self.alloc));
        self.add(Stmt::Parbegin { line, arms })
    }

    fn add_integer(&mut self, text: &[u8], at: usize) -> Option<()> {
        let integer = name(self.alloc, text, at)?;
        self.integers.push(integer).ok()
    }

    fn add_process(&mut self, text: &[u8], at: usize) -> Option<()> {
        let body = self.lists.pop()?;
        let name = name(self.alloc, text, at)?;
        let integers = std::mem::replace(&mut self.integers, Vec::new(self.alloc));
        let process = Process {
            name,
            integers,
            body,
        };
        self.program.processes.push(process).ok()
    }

    fn add_resource(&mut self, text: &[u8], at: usize, capital: Number) -> Option<()> {
        let name = name(self.alloc, text, at)?;
        self.program.resources.push(Resource { name, capital }).ok()
    }

    fn add_part(&mut self, part: Part) -> Option<()> {
        match part {
            Part::Number(value, at) => self.exprs.push(Expr::Number(Number { value, at })).ok(),
            Part::Variable(text, at) => self.add_variable(text, at),
            Part::Unary(op) => self.add_unary(op),
            Part::Binary(op) => self.add_binary(op),
            Part::List => self.lists.push(Vec::new(self.alloc)).ok(),
            Part::Assign(line, text, at) => self.add_assign(line, text, at),
            Part::Print(line) => self.add_print(line),
            Part::If(line) => self.add_if(line),
            Part::While(line) => self.add_while(line),
            Part::Demand(value, place, text, at) => {
                self.add_demand(Number { value, at: place }, text, at)
            }
            Part::Hold(line) => self.add_hold(line),
            Part::Arm => self.add_arm(),
            Part::Parbegin(line) => self.add_parbegin(line),
            Part::Integer(text, at) => self.add_integer(text, at),
            Part::Process(text, at) => self.add_process(text, at),
            Part::Resource(text, at, value, place) => {
                self.add_resource(text, at, Number { value, at: place })
            }
        }
    }
}

/// Returns the program of these parts.
pub fn made_of<A: Allocator + Copy>(alloc: A, parts: &[Part]) -> Option<Program<A>> {
    let mut draft = Draft::new(alloc);
    for part in parts {
        draft.add_part(*part)?;
    }
    Some(draft.program)
}
