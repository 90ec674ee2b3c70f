//! The schedule of a drawn script: steps from a sequence of numbers, and a drain behind them.
ghost use Rattle.std.specs.Prelude.{◌≡◌, ◌*◌, ◌<◌, ◌≤◌, ◌++◌, ◌∷◌, [], OnOk, IfOk};
ghost use Rattle.clay_gen.specs.Sequence.{drawn, state_after};
ghost use Rattle.clay_gen.specs.Steps.{step_by, picks_of, step_from, behind_step};

use crate::sequence::Sequence;
use std::alloc::{AllocError, Global};
use store_map::{ListOf, Token};

// The step of a kind: mostly a client's.
fn draw_by(sequence: &mut Sequence, kind: u32) -> Token
    ensures step { result ≡ step_by kind sequence.old }
    ensures state { sequence.new ≡ state_after (picks_of kind) sequence.old }
{
    if kind == 0 {
        return Token::Wipe(sequence.pick(6));
    }
    if kind == 1 {
        return Token::Repairer(0);
    }
    if kind == 2 {
        return Token::Sweep;
    }
    Token::Client(sequence.pick(4))
}

fn draw_step(sequence: &mut Sequence) -> Token
    ensures step { result ≡ step_from sequence.old }
    ensures state { sequence.new ≡ behind_step sequence.old }
{
    let kind = sequence.pick(32);
    draw_by(sequence, kind)
}

/// So many steps, and a drain behind them.
pub fn draw_schedule(
    sequence: &mut Sequence,
    alloc: Global,
    count: u32,
) -> Result<ListOf<Token>, AllocError>
    ensures { IfOk result (λ steps. steps ≡ drawn step_from behind_step count sequence.old ++ Token.Drain ∷ []) }
{
    let mut steps = ListOf::new(alloc);
    for _made in 0..count {
        let step = draw_step(sequence);
        steps.push(step)?;
    }
    steps.push(Token::Drain)?;
    Ok(steps)
}
