//! The chain specification and its rules S1 to S7.

ghost use Rattle.std.specs.Prelude.{◌≡◌, IsTrue, length};
ghost use Rattle.chain_defs.specs.Specification as rules;

use crate::epoch_values::{epoch_of, well_formed};
use crate::number::{hash_of, u32_at, u64_at};
use std::marker::Model;

/// What a chain is set up with. Wherever there is one, it keeps S2 to S7.
#[derive(Clone, Copy, Debug, PartialEq, Eq)]
pub struct Spec {
    /// The target of every block, as its header has it.
    pub compact_target: u32,
    /// Blocks in an epoch, 1 to 65,535.
    pub epoch_length: u32,
    /// Closest and farthest commitment after a proposal, in blocks: 1 <= w_close <= w_far <= 100.
    pub w_close: u32,
    pub w_far: u32,
    /// Bytes in a block, 1 to 1,048,576.
    pub max_block_bytes: u32,
    /// Proposals in a block or an uncle.
    pub max_proposals: u32,
    /// Cycles in a block, 1 to 2^40.
    pub max_cycles: u64,
    /// The span after which a cellbase output or a header may be used: a well-formed epoch value.
    pub maturity: u64,
    /// Shannons an epoch, before any halving.
    pub primary_reward: u64,
    /// Shannons an epoch.
    pub secondary_reward: u64,
    /// Epochs between two halvings of the primary reward, at least 1.
    pub halving_interval: u64,
    /// The code hash of the DAO script.
    pub dao_code_hash: [u8; 32],
    /// The epoch from which on the second edition of the rules holds, where there is one.
    pub second_from: Option<u64>,
}

impl Model for Spec {
    ghost use Rattle.chain_defs.specs.Specification.{Specification, KeepsItsRules};

    ghost Value = { Specification };

    ghost view = { λ spec. record {
      compact_target = spec.compact_target;
      epoch_length = spec.epoch_length;
      w_close = spec.w_close;
      w_far = spec.w_far;
      max_block_bytes = spec.max_block_bytes;
      max_proposals = spec.max_proposals;
      max_cycles = spec.max_cycles;
      maturity = spec.maturity;
      primary_reward = spec.primary_reward;
      secondary_reward = spec.secondary_reward;
      halving_interval = spec.halving_interval;
      dao_code_hash = spec.dao_code_hash;
      second_from = spec.second_from;
    } };

    ghost invariant = { λ spec. KeepsItsRules spec.epoch_length spec.w_close spec.w_far spec.max_block_bytes spec.max_cycles spec.maturity spec.halving_interval };

    ghost inverse = { λ spec. record {
      compact_target = spec.compact_target;
      epoch_length = spec.epoch_length;
      w_close = spec.w_close;
      w_far = spec.w_far;
      max_block_bytes = spec.max_block_bytes;
      max_proposals = spec.max_proposals;
      max_cycles = spec.max_cycles;
      maturity = spec.maturity;
      primary_reward = spec.primary_reward;
      secondary_reward = spec.secondary_reward;
      halving_interval = spec.halving_interval;
      dao_code_hash = spec.dao_code_hash;
      second_from = spec.second_from;
    } };
}

impl Spec {
    ghost use Rattle.std.specs.Prelude.{Some, None, IfOk, IfErr};
    ghost use Rattle.chain_defs.specs.Specification.{broken_specification_rule, specification_of, with_edition, is_second_at};

    /// The specification that the bytes hold, under no edition, or the number of the first rule that they break.
    pub fn read(b: &[u8]) -> Result<Spec, u8>
        ensures sound { IfOk result (λ spec. broken_specification_rule b.now ≡ None) }
        ensures fields { IfOk result (λ spec. spec ≡ specification_of b.now) }
        ensures broken { IfErr result (λ rule. broken_specification_rule b.now ≡ Some rule) }
    {
        if !keeps_s1(b) {
            return Err(1);
        }
        if !keeps_s2(b) {
            return Err(2);
        }
        if !keeps_s3(b) {
            return Err(3);
        }
        if !keeps_s4(b) {
            return Err(4);
        }
        if !keeps_s5(b) {
            return Err(5);
        }
        if !keeps_s6(b) {
            return Err(6);
        }
        if !keeps_s7(b) {
            return Err(7);
        }
        Ok(spec_in(b))
    }

    /// The same under this edition.
    pub fn with_edition(&self, edition: Option<u64>) -> Spec
        ensures { result ≡ with_edition edition self.now }
    {
        Spec {
            second_from: edition,
            ..*self
        }
    }

    /// Whether the block of a height stands under the second edition of the rules.
    #[tactic(auto, unfolding(chain_defs::specs::Specification::is_second_at))]
    pub fn is_second_at(&self, height: u64) -> bool
        ensures { result ≡ is_second_at self.now height }
    {
        match self.second_from {
            None => false,
            Some(first) => epoch_of(self.epoch_length, height).number >= first,
        }
    }
}

fn keeps_s1(b: &[u8]) -> bool
    ensures value { result ≡ rules.keeps_s1 b.now }
    ensures length { IsTrue result → length b.now ≡ 100 }
{
    b.len() == 100 && u32_at(b, 0) == 100
}

#[tactic(auto, unfolding(chain_defs::specs::Specification::specification_of))]
fn keeps_s2(b: &[u8]) -> bool
    requires { length b.now ≡ 100 }
    ensures { result ≡ rules.keeps_s2 (rules.specification_of b.now).epoch_length }
{
    let epoch_length = u32_at(b, 8);
    epoch_length >= 1 && epoch_length < 1 << 16
}

#[tactic(auto, unfolding(chain_defs::specs::Specification::specification_of))]
fn keeps_s3(b: &[u8]) -> bool
    requires { length b.now ≡ 100 }
    ensures { result ≡ rules.keeps_s3 (rules.specification_of b.now).w_close (rules.specification_of b.now).w_far }
{
    let w_close = u32_at(b, 12);
    let w_far = u32_at(b, 16);
    w_close >= 1 && w_close <= w_far && w_far <= 100
}

#[tactic(auto, unfolding(chain_defs::specs::Specification::specification_of))]
fn keeps_s4(b: &[u8]) -> bool
    requires { length b.now ≡ 100 }
    ensures { result ≡ rules.keeps_s4 (rules.specification_of b.now).max_block_bytes }
{
    let max_block_bytes = u32_at(b, 20);
    max_block_bytes >= 1 && max_block_bytes <= 1 << 20
}

#[tactic(auto, unfolding(chain_defs::specs::Specification::specification_of))]
fn keeps_s5(b: &[u8]) -> bool
    requires { length b.now ≡ 100 }
    ensures { result ≡ rules.keeps_s5 (rules.specification_of b.now).max_cycles }
{
    let max_cycles = u64_at(b, 28);
    max_cycles >= 1 && max_cycles <= 1 << 40
}

#[tactic(auto, unfolding(chain_defs::specs::Specification::specification_of))]
fn keeps_s6(b: &[u8]) -> bool
    requires { length b.now ≡ 100 }
    ensures { result ≡ rules.keeps_s6 (rules.specification_of b.now).maturity }
{
    let maturity = u64_at(b, 36);
    maturity < 1 << 56 && well_formed(maturity)
}

#[tactic(auto, unfolding(chain_defs::specs::Specification::specification_of))]
fn keeps_s7(b: &[u8]) -> bool
    requires { length b.now ≡ 100 }
    ensures { result ≡ rules.keeps_s7 (rules.specification_of b.now).halving_interval }
{
    u64_at(b, 60) >= 1
}

/// The specification of bytes that keep the rules.
#[tactic(auto, unfolding(chain_defs::specs::Specification::specification_of))]
fn spec_in(b: &[u8]) -> Spec
    requires length { length b.now ≡ 100 }
    requires s2 { IsTrue (rules.keeps_s2 (rules.specification_of b.now).epoch_length) }
    requires s3 { IsTrue (rules.keeps_s3 (rules.specification_of b.now).w_close (rules.specification_of b.now).w_far) }
    requires s4 { IsTrue (rules.keeps_s4 (rules.specification_of b.now).max_block_bytes) }
    requires s5 { IsTrue (rules.keeps_s5 (rules.specification_of b.now).max_cycles) }
    requires s6 { IsTrue (rules.keeps_s6 (rules.specification_of b.now).maturity) }
    requires s7 { IsTrue (rules.keeps_s7 (rules.specification_of b.now).halving_interval) }
    ensures { result ≡ rules.specification_of b.now }
{
    Spec {
        compact_target: u32_at(b, 4),
        epoch_length: u32_at(b, 8),
        w_close: u32_at(b, 12),
        w_far: u32_at(b, 16),
        max_block_bytes: u32_at(b, 20),
        max_proposals: u32_at(b, 24),
        max_cycles: u64_at(b, 28),
        maturity: u64_at(b, 36),
        primary_reward: u64_at(b, 44),
        secondary_reward: u64_at(b, 52),
        halving_interval: u64_at(b, 60),
        dao_code_hash: hash_of(&b[68..100]),
        second_from: None,
    }
}
