//! Which process waits for which, for want of cash.

ghost use Rattle.std.specs.Prelude.{◌≡◌, ◌<◌, ℕ, List, length, All, IfSome, IfNone, slice_get, Some};
ghost use Rattle.pb_banker.specs.Lenders.{lender_state};
ghost use Rattle.pb_base.specs.Banker.{processes, resources, cash};
ghost use Rattle.pb_base.specs.Bundle as bundles;
ghost use Rattle.pb_circles.specs.Links.{IsHolder, IsLinkOf, LinksTo};
ghost use Rattle.pb_circles.specs.declared.link.Link.{Link as LinkValue};
ghost use Rattle.pb_code.specs.Code.{CodeProcess};
ghost use Rattle.pb_machine.specs.Views.{machine_view, IsMachine};

use crate::asking::{amount_in, asked};
use pb_banker::Lender;
use pb_base::Bundle;
use pb_machine::Machine;
use pb_verifier::Verified;

/// A process that waits for another: an arm of it is at a request that needs more of a resource than there is
/// cash of it, and the holder, another process, has some of it. All four are numbers, as in the code.
#[derive(Clone, Copy, Debug, PartialEq, Eq)]
pub struct Link {
    pub process: usize,
    pub arm: usize,
    pub resource: usize,
    pub holder: usize,
}

/// Returns the first of these processes that is not p and holds some of a resource.
fn holder_of(bank: &Lender, among: &[usize], p: usize, r: usize) -> Option<usize>
    requires resource { r < resources (lender_state bank.now) }
    requires among { All (λ q. q < processes (lender_state bank.now)) among.now }
    ensures some { IfSome result (IsHolder (lender_state bank.now) among.now p r) }
    ensures none { IfNone result ((holder : ℕ) → IsHolder (lender_state bank.now) among.now p r holder → ⊥) }
{
    for k in 0..among.len() {
        let holder = among[k];
        if holder != p && bank.loan(holder, r) > 0 {
            return Some(holder);
        }
    }
    None
}

/// Returns a link of an arm that asks for a bundle to one of these processes, if there is one.
fn link_of(bank: &Lender, among: &[usize], p: usize, arm: usize, bundle: &Bundle) -> Option<Link>
    requires among { All (λ q. q < processes (lender_state bank.now)) among.now }
    ensures some { IfSome result (IsLinkOf (lender_state bank.now) bundle.now among.now p arm) }
    ensures none { IfNone result ((r holder : ℕ) → cash (lender_state bank.now) r < bundles.amount_in bundle.now r
        → IsHolder (lender_state bank.now) among.now p r holder → ⊥) }
{
    for r in 0..bank.resources() {
        if u64::from(bank.cash(r)) < amount_in(bundle, r) {
            if let Some(holder) = holder_of(bank, among, p, r) {
                return Some(Link {
                    process: p,
                    arm,
                    resource: r,
                    holder,
                });
            }
        }
    }
    None
}

/// Returns a link of an arm of a process to one of these, if there is one.
fn arm_link(
    verified: &Verified,
    machine: &Machine,
    among: &[usize],
    p: usize,
    arm: usize,
) -> Option<Link>
    requires machine { IsMachine verified.now machine.now }
    requires among { All (λ q. q < length (machine_view machine.now).processes) among.now }
    requires process { p < length (machine_view machine.now).processes }
    requires arm { (process : CodeProcess) → slice_get (machine_view machine.now).processes p ≡ Some process
        → arm < length process.threads }
    ensures some { IfSome result (LinksTo verified.now.code (machine_view machine.now) among.now p) }
    ensures none { IfNone result ((link : LinkValue) → link.arm ≡ arm
        → LinksTo verified.now.code (machine_view machine.now) among.now p link → ⊥) }
{
    let code = verified.code();
    match asked(&code.processes[p], machine.proc(p).thread(arm)) {
        Some(bundle) => link_of(machine.lender(), among, p, arm, bundle),
        None => None,
    }
}

/// Returns a link of a process to one of these, if there is one.
pub(crate) fn link_to(
    verified: &Verified,
    machine: &Machine,
    among: &[usize],
    p: usize,
) -> Option<Link>
    requires machine { IsMachine verified.now machine.now }
    requires among { All (λ q. q < length (machine_view machine.now).processes) among.now }
    requires process { p < length (machine_view machine.now).processes }
    ensures some { IfSome result (LinksTo verified.now.code (machine_view machine.now) among.now p) }
    ensures none { IfNone result ((link : LinkValue)
        → LinksTo verified.now.code (machine_view machine.now) among.now p link → ⊥) }
{
    for arm in 0..machine.proc(p).arms() {
        if let Some(link) = arm_link(verified, machine, among, p, arm) {
            return Some(link);
        }
    }
    None
}
