//! The instructions of statements. A jump is written with a target of 0, and patched once its target is
//! known.

ghost use Rattle.std.specs.Prelude.{◌≡◌, suc, ◌+◌, ◌<◌, ◌≤◌, [], ◌∷◌, ◌++◌, None, Some, OnOk, drop, length, replicate};
ghost use Rattle.pb_code.specs.Bundles.{IsPlain};
ghost use Rattle.pb_code.specs.View.{instr_view};
ghost use Rattle.pb_generator.specs.Emitted.{Adds, HasRoom, IsSound, place};
ghost use Rattle.pb_generator.specs.Generate.{arm_code, block_code, expr_code, stmt_code};
ghost use Rattle.pb_generator.specs.Lines.{block_lines, block_line, stmt_lines};
ghost use Rattle.pb_names.specs.Program.{arms_in, arms_in_stmt, count, If, While, Hold, Parbegin};
ghost use Rattle.pb_names.specs.View.{arms_view, block_view, expr_view, stmt_view};

use crate::writer::Writer;
use pb_base::limits::MAX_ARMS;
use pb_base::{Bundle, NoMemory};
use pb_code::Instr;
use pb_names::{Expr, Stmt};
use std::alloc::Allocator;

/// Returns the line of what follows a statement of a list, which is itself followed by what has the line
/// `after`.
fn line_after<A: Allocator>(stmts: &Vec<Stmt<A>, A>, i: usize, after: Option<u32>) -> Option<u32>
    requires { i < length stmts.now.items }
    ensures { result ≡ block_line (block_view (drop (i + 1) stmts.now.items)) after }
{
    match stmts.get(i + 1) {
        Some(next) => Some(next.line()),
        None => after,
    }
}

impl Writer {
    /// Appends the instructions of a statement. What follows it has the line `after`.
    #[cycle(statements)]
    fn put_stmt<A: Allocator>(&mut self, stmt: &Stmt<A>, after: Option<u32>) -> Result<(), NoMemory>
        requires room { HasRoom self.old (stmt_code (place self.old) (stmt_view stmt.now)) }
        requires few_arms { length (arms_in_stmt (stmt_view stmt.now)) ≤ MAX_ARMS }
        ensures { OnOk result (Adds self.old self.new (stmt_code (place self.old) (stmt_view stmt.now))
            (stmt_lines (stmt_view stmt.now) after)) }
    {
        match stmt {
            Stmt::Assign {
                line,
                target,
                value,
            } => self.put_last(*line, value, Instr::Store(*target)),
            Stmt::Print { line, value } => self.put_last(*line, value, Instr::Print),
            Stmt::If {
                line,
                test,
                on_true,
                on_false,
            } => self.put_if(*line, test, on_true, on_false, after),
            Stmt::While { line, test, body } => self.put_while(*line, test, body),
            Stmt::Hold { line, bundle, body } => self.put_hold(*line, bundle, body),
            Stmt::Parbegin { line, first, arms } => self.put_parbegin(*line, *first, arms),
        }
    }

    /// Appends a list of statements. What follows it has the line `after`.
    #[cycle(statements)]
    pub(crate) fn put_block<A: Allocator>(
        &mut self,
        stmts: &Vec<Stmt<A>, A>,
        after: Option<u32>,
    ) -> Result<(), NoMemory>
        requires room { HasRoom self.old (block_code (place self.old) (block_view stmts.now.items)) }
        requires few_arms { length (arms_in (block_view stmts.now.items)) ≤ MAX_ARMS }
        ensures { OnOk result (Adds self.old self.new (block_code (place self.old) (block_view stmts.now.items))
            (block_lines (block_view stmts.now.items) after)) }
    {
        for (i, stmt) in stmts.iter().enumerate() {
            self.put_stmt(stmt, line_after(stmts, i, after))?;
        }
        Ok(())
    }

    /// Appends an `if`: the test, a jump to the second list if it is 0, the first list, a jump to what
    /// follows, the second list.
    #[cycle(statements)]
    fn put_if<A: Allocator>(
        &mut self,
        line: u32,
        test: &Expr<A>,
        on_true: &Vec<Stmt<A>, A>,
        on_false: &Vec<Stmt<A>, A>,
        after: Option<u32>,
    ) -> Result<(), NoMemory>
        requires room { HasRoom self.old (stmt_code (place self.old)
            (If line (expr_view test.now) (block_view on_true.now.items) (block_view on_false.now.items))) }
        requires few_arms { length (arms_in_stmt
            (If line (expr_view test.now) (block_view on_true.now.items) (block_view on_false.now.items))) ≤ MAX_ARMS }
        ensures { OnOk result (Adds self.old self.new
            (stmt_code (place self.old)
            (If line (expr_view test.now) (block_view on_true.now.items) (block_view on_false.now.items)))
            (stmt_lines (If line (expr_view test.now) (block_view on_true.now.items) (block_view on_false.now.items))
            after)) }
    {
        self.put_expr(line, test)?;
        let to_other = self.place();
        self.put(Some(line), Instr::JumpIfZero(0))?;
        self.put_block(on_true, after)?;
        let to_end = self.place();
        self.put(after, Instr::Jump(0))?;
        let other = self.place();
        self.patch(to_other, Instr::JumpIfZero(other));
        self.put_block(on_false, after)?;
        let end = self.place();
        self.patch(to_end, Instr::Jump(end));
        Ok(())
    }

    /// Appends a `while`: the test, a jump to what follows if it is 0, the list, a jump to the test.
    #[cycle(statements)]
    fn put_while<A: Allocator>(
        &mut self,
        line: u32,
        test: &Expr<A>,
        body: &Vec<Stmt<A>, A>,
    ) -> Result<(), NoMemory>
        requires room { HasRoom self.old (stmt_code (place self.old)
            (While line (expr_view test.now) (block_view body.now.items))) }
        requires few_arms { length (arms_in (block_view body.now.items)) ≤ MAX_ARMS }
        ensures { OnOk result (Adds self.old self.new
            (stmt_code (place self.old) (While line (expr_view test.now) (block_view body.now.items)))
            (stmt_lines (While line (expr_view test.now) (block_view body.now.items)) (Some line))) }
    {
        let start = self.place();
        self.put_expr(line, test)?;
        let to_end = self.place();
        self.put(Some(line), Instr::JumpIfZero(0))?;
        self.put_block(body, Some(line))?;
        self.put(Some(line), Instr::Jump(start))?;
        let end = self.place();
        self.patch(to_end, Instr::JumpIfZero(end));
        Ok(())
    }

    /// Appends a `hold`: its body between a `take` and a `give` of its bundle.
    #[cycle(statements)]
    fn put_hold<A: Allocator>(
        &mut self,
        line: u32,
        bundle: &Bundle,
        body: &Vec<Stmt<A>, A>,
    ) -> Result<(), NoMemory>
        requires room { HasRoom self.old (stmt_code (place self.old)
            (Hold line bundle.now (block_view body.now.items))) }
        requires few_arms { length (arms_in (block_view body.now.items)) ≤ MAX_ARMS }
        ensures { OnOk result (Adds self.old self.new
            (stmt_code (place self.old) (Hold line bundle.now (block_view body.now.items)))
            (stmt_lines (Hold line bundle.now (block_view body.now.items)) (Some line))) }
    {
        let bundle = self.put_take(line, bundle)?;
        self.put_block(body, Some(line))?;
        self.put(Some(line), Instr::Give(bundle))?;
        Ok(())
    }

    /// Appends a `parbegin`: the start of its arms, and the wait for their ends.
    fn put_parbegin<A: Allocator>(
        &mut self,
        line: u32,
        first: u8,
        arms: &Vec<Vec<Stmt<A>, A>, A>,
    ) -> Result<(), NoMemory>
        requires room { HasRoom self.old (stmt_code (place self.old) (Parbegin line first (arms_view arms.now.items))) }
        requires few_arms { count (arms_view arms.now.items) ≤ MAX_ARMS }
        ensures { OnOk result (Adds self.old self.new
            (stmt_code (place self.old) (Parbegin line first (arms_view arms.now.items)))
            (stmt_lines (Parbegin line first (arms_view arms.now.items)) (Some line))) }
    {
        let count = arms.len() as u8;
        self.put(Some(line), Instr::Fork { first, count })?;
        self.put(Some(line), Instr::Join { first, count })?;
        Ok(())
    }

    /// Appends an expression, and an instruction after it that takes its value.
    fn put_last<A: Allocator>(
        &mut self,
        line: u32,
        value: &Expr<A>,
        last: Instr,
    ) -> Result<(), NoMemory>
        requires sound { IsSound self.old }
        requires plain { IsPlain last }
        ensures { OnOk result (Adds self.old self.new
            (expr_code (expr_view value.now) ++ instr_view [] last ∷ [])
            (replicate (suc (length (expr_code (expr_view value.now)))) (Some line))) }
    {
        self.put_expr(line, value)?;
        self.put(Some(line), last)?;
        Ok(())
    }

    /// Appends the list of an arm, and its end.
    pub(crate) fn put_arm<A: Allocator>(&mut self, arm: &Vec<Stmt<A>, A>) -> Result<(), NoMemory>
        requires room { HasRoom self.old (arm_code (place self.old) (block_view arm.now.items)) }
        requires few_arms { length (arms_in (block_view arm.now.items)) ≤ MAX_ARMS }
        ensures { OnOk result (Adds self.old self.new (arm_code (place self.old) (block_view arm.now.items))
            (block_lines (block_view arm.now.items) None ++ None ∷ [])) }
    {
        self.put_block(arm, None)?;
        self.put(None, Instr::End)?;
        Ok(())
    }
}
