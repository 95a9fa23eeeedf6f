//! A block's shares of the rewards of its epoch.

ghost use Rattle.std.specs.Prelude.{◌≡◌, ◌/◌, ◌^◌, IsTrue, sum, map};
ghost use Rattle.std.specs.List.{range_with_len};
ghost use Rattle.chain_defs.specs.Epochs as epochs;
ghost use Rattle.chain_defs.specs.Specification.{keeps_s2};

use crate::specification::Spec;

/// The share that the block of height `number` has in the reward of its epoch, of `length` blocks.
pub fn share(length: u32, number: u64, reward: u64) -> u64
    requires { IsTrue (keeps_s2 length) }
    ensures share { result ≡ epochs.share length number reward }

    // The shares of an epoch's blocks add up to its reward.
    ensures whole { sum (map (λ index. epochs.share_of_index length index reward) (range_with_len 0 length)) ≡ reward }
{
    let blocks = u64::from(length);
    let whole = reward / blocks;
    if number % blocks < reward % blocks {
        whole + 1
    } else {
        whole
    }
}

/// The share of the block of height `number` in the primary reward of its epoch, in shannons.
pub fn primary(spec: &Spec, number: u64) -> u64
    ensures { result ≡ epochs.primary_share spec.now.epoch_length spec.now.primary_reward spec.now.halving_interval number }
{
    let epoch = number / u64::from(spec.epoch_length);
    let reward = halved(spec.primary_reward, epoch / spec.halving_interval);
    share(spec.epoch_length, number, reward)
}

/// The reward after so many halvings, which may be more than a number has bits.
fn halved(reward: u64, halvings: u64) -> u64
    ensures { result ≡ reward / 2 ^ halvings }
{
    if halvings < 64 { reward >> halvings } else { 0 }
}
