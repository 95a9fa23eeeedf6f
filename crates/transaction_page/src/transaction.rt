// A transaction that was judged, explained.
ghost use Rattle.std.specs.Prelude.{◌≡◌, ◌^◌, ◌<◌, ◌≤◌, length};
ghost use Rattle.chain_defs.specs.Hashes.{transaction_hash};
ghost use Rattle.chain_tree.specs.Blocks.{IsParent};
ghost use Rattle.chain_tree.specs.Reading.{HasRead, stop_of};

use crate::age::{explain_maturity, explain_since};
use crate::cells::{explain_inputs, explain_money, explain_outputs};
use crate::deps::{explain_deps, explain_headers};
use crate::form::explain_form;
use crate::groups::explain_groups;
use crate::history::explain_proposal;
use crate::page::Page;
use crate::rules::text_of;
use crate::site::Site;
use cell_state::Cells;
use chain_tree::Blocks;
use mol_schema::TxView;
use outside::ReadStop;
use std::alloc::Global;
use tx_rules::{JudgedTx, Own, TxAt, TxStop, resolve};
use view_hashes::proposal_id;

/// A transaction that was judged, with its hash: the first rule that it breaks, and the group whose page is asked for.
#[derive(Clone, Copy)]
pub struct Judged<'t, 'a> {
    pub tx: &'t TxView<'a>,
    pub hash: [u8; 32],
    pub rule: Option<u8>,
    pub asked: Option<u32>,
}

/// Appends what a rule says.
pub fn push_rule(page: &mut Page, rule: u8) {
    page.add("J");
    page.number(u64::from(rule));
    page.add(": ");
    page.add(text_of(rule));
    page.add("\n");
}

/// Appends what is found of a transaction: of the rule that it breaks the place, what was found and what is wanted; of scripts
/// each group. Where it breaks none of J18 to J27, its groups are run again.
pub fn explain<C: Cells, B: Blocks>(
    alloc: Global,
    page: &mut Page,
    site: &Site<'_, '_, '_, '_, '_, C>,
    blocks: &mut B,
    judged: &Judged<'_, '_>,
) -> Result<(), ReadStop>
    requires placed { IsParent site.now.tree.now.entries site.now.parent }
    requires left { site.now.left ≤ 2 ^ 40 }
    requires counts { B.count blocks.old ≡ length site.now.tree.now.entries }
    requires hash { judged.now.hash ≡ transaction_hash judged.now.tx.now }
    ensures read { HasRead B.told B.count B.loans_of B.faults B.damages blocks.old blocks.new (stop_of result) }
{
    let tx = judged.tx;
    match judged.rule {
        Some(18) => {
            explain_form(page, tx);
            Ok(())
        }
        Some(19) => explain_proposal(page, site, blocks, &proposal_id(&judged.hash)),
        Some(20) => explain_inputs(page, site, blocks, tx),
        Some(21) => explain_deps(alloc, page, site, blocks, tx),
        Some(22) => {
            explain_headers(page, site, tx);
            Ok(())
        }
        Some(23) => explain_maturity(alloc, page, site, blocks, tx),
        Some(24) => {
            explain_since(page, site, tx);
            Ok(())
        }
        Some(25) => {
            explain_outputs(page, site, tx, judged.hash);
            Ok(())
        }
        Some(26) => explain_money(alloc, page, site, blocks, tx, 26),
        Some(27) => explain_money(alloc, page, site, blocks, tx, 27),
        _ => explain_scripts(alloc, page, site, blocks, judged),
    }
}

/// The groups of a transaction that keeps J18 to J27.
fn explain_scripts<C: Cells, B: Blocks>(
    alloc: Global,
    page: &mut Page,
    site: &Site<'_, '_, '_, '_, '_, C>,
    blocks: &mut B,
    judged: &Judged<'_, '_>,
) -> Result<(), ReadStop>
    requires placed { IsParent site.now.tree.now.entries site.now.parent }
    requires left { site.now.left ≤ 2 ^ 40 }
    requires counts { B.count blocks.old ≡ length site.now.tree.now.entries }
    requires hash { judged.now.hash ≡ transaction_hash judged.now.tx.now }
    ensures read { HasRead B.told B.count B.loans_of B.faults B.damages blocks.old blocks.new (stop_of result) }
{
    let at = TxAt {
        spec: site.spec,
        tree: site.tree,
        parent: site.parent,
        block: match site.own {
            None => None,
            Some(own) => Some(Own::so_far(own.timestamp, own.before)),
        },
    };
    let its = JudgedTx {
        tx: judged.tx,
        hash: judged.hash,
        proposed: true,
    };
    match resolve(alloc, &its, &at, site.cells, blocks, Vec::new(alloc)) {
        Ok(ok) => explain_groups(alloc, page, site, blocks, &ok.resolved, judged.asked),
        Err(TxStop::Broken(_)) => Ok(()),
        Err(TxStop::Read(stop)) => Err(stop),
    }
}
