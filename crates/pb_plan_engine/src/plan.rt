//! The command `plan`, over any input, teller and output.

ghost use Rattle.std.specs.Prelude.{◌≡◌, ◌≢◌, ◌≤◌, ◌++◌, [], ◌∷◌, IfOk, List, OnOk, length, map, option_map};
ghost use Rattle.pb_capitals.specs.Changes.{changes_in};
ghost use Rattle.pb_codegen.specs.declared.fault.CompileFault.TheVariants as kind;
ghost use Rattle.pb_joint.specs.View.{full_name};
ghost use Rattle.pb_names.specs.Program.{capital_of};
ghost use Rattle.pb_names.specs.View.{resolved_view};
ghost use Rattle.pb_names.specs.Resolves.{resource_names};
ghost use Rattle.pb_plan.specs.Circles.{IsCircleAmong};
ghost use Rattle.pb_plan.specs.Nests.{AskBelow};
ghost use Rattle.pb_plan.specs.declared.edge.Edge.{Edge as EdgeValue};
ghost use Rattle.pb_plan_engine.specs.Plans as plans;
ghost use Rattle.pb_plan_engine.specs.Plans.{HasNoOrderAmong, HasStatus, IsOfTree, IsOrderIfAny, IsPlan, SaysOfPlan, SaysOfPlans, TellsPlan};
ghost use Rattle.pb_plan_engine.specs.Plans.{said_of_circle, said_of_claims, scarce_of};
ghost use Rattle.pb_plan_engine.specs.Sayings as saying;
ghost use Rattle.pb_plan_engine.specs.View.{said_view};
ghost use Rattle.pb_base.specs.Tables.{width_of};
ghost use Rattle.pb_voice.specs.Held.{at};
ghost use Rattle.pb_voice.specs.Tellings.{Answers, Speaks};

use crate::changing::{change_capitals, undeclared};
use crate::rows::{
    add, add_circle, add_process, add_resources, bottleneck_of, order_said, process_name,
};
use crate::said::{Refusal, Said};
use crate::teller::{Teller, tell_all, tell_last};
use crate::texts::texts_of;
use pb_base::limits::MAX_INPUT;
use pb_base::{Capital, Claims, Input, Lending, NoMemory, Output, ReadFault, read_whole};
use pb_capitals::{Change, Changes};
use pb_claims::fits;
use pb_codegen::CompileFault;
use pb_command_io::Status;
use pb_joint::{FullName, Joint, TextFault, read_texts};
use pb_names::Resolved;
use pb_plan::{bottleneck, find_circle, find_order, find_order_among, scarce};
use std::alloc::{Allocator, Global};

/// What a plan says, and the status.
#[derive(Drop)]
struct Plan {
    said: Vec<Said>,
    status: Status,
}

/// Adds the claims of all processes, which are called so.
fn add_processes<A: Allocator>(
    alloc: Global,
    said: &mut Vec<Said>,
    names: &[FullName],
    program: &Resolved<A>,
    claims: &Claims,
) -> Result<(), NoMemory>
    requires numbered { IsOfTree (resolved_view program.now) claims.now }
    requires names { length names.now ≡ length program.now.processes.items }
    ensures { OnOk result (map said_view said.new.items ≡ map said_view said.old.items
        ++ said_of_claims (map full_name names.now) (resolved_view program.now) claims.now) }
{
    let processes = &program.processes;
    for p in 0..processes.len() {
        let called = process_name(names, p);
        add_process(
            alloc,
            said,
            called,
            &processes[p],
            claims,
            p,
            &program.resources,
        )?;
    }
    Ok(())
}

/// Returns the status of a plan: whether the capital is enough for every claim, and if it is, whether a deadlock may be
/// possible when the texts run under this lending.
fn status<A: Allocator>(
    lending: Lending,
    program: &Resolved<A>,
    claims: &Claims,
    capital: &Capital,
    order: &Option<Vec<usize>>,
) -> Status
    requires width { width_of claims.now ≡ length capital.now }
    requires capital { capital.now ≡ capital_of (resolved_view program.now) }
    requires ordered { IsOrderIfAny (resolved_view program.now) (scarce_of (resolved_view program.now) claims.now)
        (option_map (λ order. order.items) order.now) }
    ensures said { HasStatus lending (resolved_view program.now) claims.now result }
    ensures no_fault { result ≢ Status.Device }
{
    match fits(claims, capital) {
        Ok(()) => match (lending, order) {
            (Lending::ByBanker, _) => Status::Done,
            (Lending::ByCash, Some(_)) => Status::Done,
            (Lending::ByCash, None) => Status::Deadlock,
        },
        Err(over) => {
            let _ = over;
            Status::Refused
        }
    }
}

/// Returns what is said with a circle after it, of a program that follows no order of these resources.
fn with_circle<A: Allocator>(
    alloc: Global,
    said: Vec<Said>,
    names: &[FullName],
    program: &Resolved<A>,
    few: &[usize],
) -> Result<Vec<Said>, NoMemory>
    requires names { length names.now ≡ length program.now.processes.items }
    requires below { AskBelow (length (resolved_view program.now).resources) (resolved_view program.now).processes }
    requires none { HasNoOrderAmong (resolved_view program.now) few.now }
    ensures { IfOk result (λ whole. (circle : List EdgeValue)
        × IsCircleAmong few.now (resolved_view program.now).processes circle
        × (map said_view whole.items ≡ map said_view said.items ++ said_of_circle (map full_name names.now)
        (resource_names (resolved_view program.now)) circle)) }
{
    let mut whole = said;
    let found = find_circle(alloc, &program.processes, program.resources.len(), few)?;
    let Some(circle) = found else { unreachable!() };
    add_circle(alloc, &mut whole, names, &program.resources, &circle)?;
    Ok(whole)
}

/// Returns what is said of a program with this capital, of which these resources are scarce, and whose processes are
/// called so and follow this order.
fn said_of_plan<A: Allocator>(
    alloc: Global,
    names: &[FullName],
    program: &Resolved<A>,
    claims: &Claims,
    capital: &Capital,
    few: &[usize],
    order: &Option<Vec<usize>>,
) -> Result<Vec<Said>, NoMemory>
    requires numbered { IsOfTree (resolved_view program.now) claims.now }
    requires names { length names.now ≡ length program.now.processes.items }
    requires capital { capital.now ≡ capital_of (resolved_view program.now) }
    requires resources { length capital.now ≡ length program.now.resources.items }
    requires width { width_of claims.now ≡ length capital.now }
    requires few { few.now ≡ scarce_of (resolved_view program.now) claims.now }
    requires ordered { IsOrderIfAny (resolved_view program.now) (scarce_of (resolved_view program.now) claims.now)
        (option_map (λ order. order.items) order.now) }
    ensures { IfOk result (λ said. IsPlan (map full_name names.now) (resolved_view program.now) claims.now (map said_view said.items)) }
{
    let mut said = Vec::new(alloc);
    let found = bottleneck(claims, capital);
    add_processes(alloc, &mut said, names, program, claims)?;
    add_resources(alloc, &mut said, &program.resources, capital, claims)?;
    let last = bottleneck_of(alloc, &program.resources, found)?;
    add(&mut said, last)?;
    let follows = order_said(alloc, &program.resources, order)?;
    add(&mut said, follows)?;
    match order {
        Some(_) => Ok(said),
        None => with_circle(alloc, said, names, program, few),
    }
}

/// Returns an order of the resources that all processes of a program follow; or, if there is none, one of these that
/// they follow, if there is one.
fn order_of<A: Allocator>(
    alloc: Global,
    program: &Resolved<A>,
    few: &[usize],
) -> Result<Option<Vec<usize>>, NoMemory>
    requires { AskBelow (length (resolved_view program.now).resources) (resolved_view program.now).processes }
    ensures { IfOk result (λ found.
        IsOrderIfAny (resolved_view program.now) few.now (option_map (λ order. order.items) found)) }
{
    let resources = program.resources.len();
    let all = find_order(alloc, &program.processes, resources)?;
    let Some(order) = all else {
        return find_order_among(alloc, &program.processes, resources, few);
    };
    Ok(Some(order))
}

/// Returns the plan of a program, whose processes are called so.
fn make_plan<A: Allocator>(
    alloc: Global,
    lending: Lending,
    names: &[FullName],
    program: &Resolved<A>,
    claims: &Claims,
) -> Result<Plan, NoMemory>
    requires numbered { IsOfTree (resolved_view program.now) claims.now }
    requires names { length names.now ≡ length program.now.processes.items }
    ensures said { IfOk result (λ plan. IsPlan (map full_name names.now) (resolved_view program.now) claims.now (map said_view plan.said.items)
        × HasStatus lending (resolved_view program.now) claims.now plan.status) }
    ensures no_fault { IfOk result (λ plan. plan.status ≢ Status.Device) }
{
    let capital = program.capital(alloc)?;
    let few = scarce(alloc, claims, &capital)?;
    let order = order_of(alloc, program, &few)?;
    let said = said_of_plan(alloc, names, program, claims, &capital, &few, &order)?;
    let status = status(lending, program, claims, &capital, &order);
    Ok(Plan { said, status })
}

/// Returns a plan that says one thing, which is a refusal.
fn refused(alloc: Global, one: Said) -> Result<Plan, NoMemory>
    ensures said { IfOk result (λ plan. map said_view plan.said.items ≡ said_view one ∷ []) }
    ensures status { IfOk result (λ plan. plan.status ≡ Status.Refused) }
{
    let mut said = Vec::new(alloc);
    add(&mut said, one)?;
    Ok(Plan {
        said,
        status: Status::Refused,
    })
}

/// Returns the refusal of a change that names no resource.
fn unknown(alloc: Global, change: &Change) -> Result<Plan, NoMemory>
    ensures said { IfOk result (λ plan. map said_view plan.said.items ≡ saying.Unknown change.now.resource.bytes ∷ []) }
    ensures status { IfOk result (λ plan. plan.status ≡ Status.Refused) }
{
    let name = Vec::from_slice(alloc, change.resource.as_str().as_bytes())?;
    refused(alloc, Said::Unknown(name))
}

/// Returns the plan of the program of texts as it would be with these changes of its capital, or the refusal of the first of
/// them that names no resource of it.
fn changed_plan(
    alloc: Global,
    lending: Lending,
    changes: &Changes,
    joint: Joint,
) -> Result<Plan, NoMemory>
    requires numbered { IsOfTree (resolved_view joint.program) joint.claims }
    requires names { length joint.names.items ≡ length joint.program.processes.items }
    ensures said { IfOk result (λ plan. TellsPlan lending (changes_in changes.now) (map full_name joint.names.items)
        (resolved_view joint.program) joint.claims (map said_view plan.said.items) plan.status) }
    ensures no_fault { IfOk result (λ plan. plan.status ≢ Status.Device) }
{
    if let Some(change) = undeclared(&joint.program, changes.as_slice()) {
        return unknown(alloc, change);
    }
    let mut program = joint.program;
    change_capitals(&mut program, changes);
    make_plan(alloc, lending, &joint.names, &program, &joint.claims)
}

/// Returns the number of a text, from 1, if there are several.
fn number_of(several: bool, index: usize) -> Option<u128>
    ensures { result ≡ plans.number_of several index }
{
    if several {
        Some(index as u128 + 1)
    } else {
        None
    }
}

/// Returns the refusal of texts, of which there are several or one. The error comes if they are refused as out of memory.
fn refusal_of(alloc: Global, several: bool, refused_for: TextFault) -> Result<Plan, NoMemory>
    ensures fault { IfOk result (λ _. refused_for.fault ≢ kind.Memory) }
    ensures said { IfOk result (λ plan. map said_view plan.said.items
        ≡ saying.Refused (plans.number_of several refused_for.index) refused_for.fault ∷ []) }
    ensures status { IfOk result (λ plan. plan.status ≡ Status.Refused) }
{
    let text = number_of(several, refused_for.index);
    match refused_for.fault {
        CompileFault::Memory => Err(NoMemory),
        fault => refused(alloc, Said::Refused(Refusal { text, fault })),
    }
}

/// Returns the plan of the program of texts with these changes of its capital, or the first refusal.
fn plan_of_texts(
    alloc: Global,
    lending: Lending,
    changes: &Changes,
    bytes: &[u8],
) -> Result<Plan, NoMemory>
    ensures said { IfOk result (λ plan. SaysOfPlan lending (changes_in changes.now) bytes.now (map said_view plan.said.items) plan.status) }
    ensures no_fault { IfOk result (λ plan. plan.status ≢ Status.Device) }
{
    let texts = texts_of(alloc, bytes)?;
    match read_texts(alloc, &texts) {
        Ok(joint) => changed_plan(alloc, lending, changes, joint),
        Err(fault) => refusal_of(alloc, texts.len() > 1, fault),
    }
}

/// Tells the plan of an input.
fn tell_plan<O: Output, T: Teller>(
    alloc: Global,
    lending: Lending,
    changes: &Changes,
    bytes: &[u8],
    teller: &mut T,
    output: &mut O,
) -> Status
    requires { length bytes.now ≤ MAX_INPUT }
    ensures { Speaks T.tells T.breaks (SaysOfPlans lending (changes_in changes.now) bytes.now)
        (at O.written O.failures teller.old output.old) (at O.written O.failures teller.new output.new) result }
{
    match plan_of_texts(alloc, lending, changes, bytes) {
        Ok(plan) => tell_all(teller, output, &plan.said, plan.status),
        Err(_) => tell_last(teller, output, &Said::NoMemory, Status::Memory),
    }
}

/// Tells the plan of the text on the input: for each process and each resource, in the order in which they are
/// declared, the claim and the lines of the holds that it comes from; for each resource its capital, the least
/// capital with which the text is accepted, and the least with which there is enough for all claims at once; and
/// then the resource of which most is lacking for that, or that no request waits; and at the end an order of the
/// resources that all processes follow; or, if there is none, one of the resources of which there is not enough for
/// all claims at once; or that there is none of these either, with a circle of nested holds of them. The status is
/// `Refused` if some claim is over its capital; otherwise `Deadlock` if the cash alone is to decide on requests and there
/// is no order. Of a text that is not a program the refusal is told.
///
/// If lines `%%` part the input, its texts are planned as one program: a process is told with the number of its text,
/// and so is the refusal of a text that is none by itself, or not together with those before it.
///
/// With changes the plan, with its status, is that of the program as it would be if its resources had the capitals which
/// the changes name. A change that names no resource of the program is refused, the first of them.
///
/// After a read that failed nothing is told; after a write that failed, no more.
pub fn plan_engine<I: Input, O: Output, T: Teller>(
    alloc: Global,
    lending: Lending,
    changes: &Changes,
    input: &mut I,
    teller: &mut T,
    output: &mut O,
) -> Status
    ensures { Answers T.tells T.breaks (SaysOfPlans lending (changes_in changes.now)) (I.rest input.old) (I.failures input.old)
        (I.failures input.new) (at O.written O.failures teller.old output.old) (at O.written O.failures teller.new output.new) result }
{
    match read_whole(alloc, input, MAX_INPUT) {
        Ok(bytes) => tell_plan(alloc, lending, changes, &bytes, teller, output),
        Err(ReadFault::TooLong) => tell_last(teller, output, &Said::TooLong, Status::Refused),
        Err(ReadFault::Memory) => tell_last(teller, output, &Said::NoMemory, Status::Memory),
        Err(ReadFault::Device) => Status::Device,
    }
}
