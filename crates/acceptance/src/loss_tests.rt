//! The losses that a report tells, against a plain program that tries every loss.
use crate::command::check;
use crate::sessions::{Packet, certificate_of, session_of_packets};
use std::alloc::Global;
use std::process::Abort;
use std::test::Fail;

/// A symbol that a session may hold.
struct Kind {
    block: u8,
    esi: u8,
    symbol: [u8; 1],
}

/// An object with its certificate, and each symbol that its sessions may hold, at most four.
struct Plan<'a> {
    fti: [u8; 10],
    object: &'a [u8],
    coefficients: &'a [u8],
    /// How many different ESIs each block needs.
    needs: &'a [usize],
    kinds: &'a [Kind],
}

/// What stands at a place: which of the kinds, and whether its packet carries the FTI.
#[derive(Clone, Copy)]
struct Place {
    kind: usize,
    carries: bool,
}

// One block of two source symbols and three encoding symbols.
const ONE_BLOCK: Plan<'static> = Plan {
    fti: [0, 0, 0, 0, 0, 2, 0, 1, 2, 3],
    object: &[1, 2],
    coefficients: &[0, 1],
    needs: &[2],
    kinds: &[
        Kind {
            block: 0,
            esi: 0,
            symbol: [1],
        },
        Kind {
            block: 0,
            esi: 1,
            symbol: [2],
        },
        Kind {
            block: 0,
            esi: 2,
            symbol: [4],
        },
    ],
};

// Such a block, and one of one source symbol and one encoding symbol.
const TWO_BLOCKS: Plan<'static> = Plan {
    fti: [0, 0, 0, 0, 0, 3, 0, 1, 2, 3],
    object: &[1, 2, 3],
    coefficients: &[0, 1, 3],
    needs: &[2, 1],
    kinds: &[
        Kind {
            block: 0,
            esi: 0,
            symbol: [1],
        },
        Kind {
            block: 0,
            esi: 1,
            symbol: [2],
        },
        Kind {
            block: 0,
            esi: 2,
            symbol: [4],
        },
        Kind {
            block: 1,
            esi: 0,
            symbol: [3],
        },
    ],
};

// Which kinds are left where the places whose binary digit is 1 in `lost` are lost.
fn kinds_left(places: &[Place], lost: usize) -> [bool; 4] {
    let mut left = [false; 4];
    let mut digits = lost;
    for place in places {
        if digits % 2 == 0 {
            if let Some(is_left) = left.get_mut(place.kind) {
                *is_left = true;
            }
        }
        digits /= 2;
    }
    left
}

// How many carriers are left.
fn carriers_left(places: &[Place], lost: usize) -> usize {
    let mut count = 0usize;
    let mut digits = lost;
    for place in places {
        if place.carries && digits % 2 == 0 {
            count = count.saturating_add(1);
        }
        digits /= 2;
    }
    count
}

// How many different ESIs of a block are left.
fn esis_left(plan: &Plan<'_>, left: &[bool; 4], block: usize) -> usize {
    let mut count = 0usize;
    for (i, kind) in plan.kinds.iter().enumerate() {
        if usize::from(kind.block) == block && left.get(i) == Some(&true) {
            count = count.saturating_add(1);
        }
    }
    count
}

// The least block that a loss leaves short.
fn short_block(plan: &Plan<'_>, places: &[Place], lost: usize) -> Option<usize> {
    let left = kinds_left(places, lost);
    for (block, need) in plan.needs.iter().enumerate() {
        if esis_left(plan, &left, block) < *need {
            return Some(block);
        }
    }
    None
}

// Whether a loss leaves a block short, or no carrier.
fn is_too_much(plan: &Plan<'_>, places: &[Place], lost: usize) -> bool {
    short_block(plan, places, lost).is_some() || carriers_left(places, lost) == 0
}

// The ESIs of a block that a loss takes away wholly, as a number: such numbers stand in the order
// of a dictionary.
fn taken_esis(plan: &Plan<'_>, places: &[Place], lost: usize, block: usize) -> usize {
    let all = kinds_left(places, 0);
    let left = kinds_left(places, lost);
    let mut digits = 0usize;
    let mut unit = 1000usize;
    for (i, kind) in plan.kinds.iter().enumerate() {
        if usize::from(kind.block) == block
            && all.get(i) == Some(&true)
            && left.get(i) == Some(&false)
        {
            digits = digits.saturating_add(unit.saturating_mul(usize::from(kind.esi) + 1));
            unit /= 10;
        }
    }
    digits
}

// How many places a loss takes.
fn size_of(lost: usize) -> usize {
    lost.count_ones() as usize
}

// What a report says of the losses, found by trying all of them.
#[derive(Drop)]
struct Losses {
    carriers: usize,
    /// How many places the least loss that is too much takes, the block that it leaves short, the
    /// ESIs taken, and the loss.
    least: (usize, usize, usize, usize),
    burst: usize,
}

// A loss of all carriers that leaves no block short stands behind those as small that do.
fn least_loss(plan: &Plan<'_>, places: &[Place], losses: usize) -> (usize, usize, usize, usize) {
    let mut least = (usize::MAX, 0, 0, 0);
    for lost in 0..losses {
        if is_too_much(plan, places, lost) {
            let found = match short_block(plan, places, lost) {
                Some(block) => {
                    let taken = taken_esis(plan, places, lost, block);
                    (size_of(lost), block, taken, lost)
                }
                None => (size_of(lost), usize::MAX, 0, lost),
            };
            if found < least {
                least = found;
            }
        }
    }
    least
}

// Whether no loss of `size` neighbours is too much. `one_each` is 2^size - 1.
fn bears_runs(plan: &Plan<'_>, places: &[Place], size: usize, one_each: usize) -> bool {
    let mut run = one_each;
    for _start in size..=places.len() {
        if is_too_much(plan, places, run) {
            return false;
        }
        run = run.saturating_mul(2);
    }
    true
}

fn all_losses(plan: &Plan<'_>, places: &[Place], losses: usize) -> Losses {
    let mut burst = 0;
    let mut one_each = 0usize;
    for size in 0..=places.len() {
        if bears_runs(plan, places, size, one_each) {
            burst = size;
        }
        one_each = one_each.saturating_mul(2).saturating_add(1);
    }
    Losses {
        carriers: carriers_left(places, 0),
        least: least_loss(plan, places, losses),
        burst,
    }
}

// The lines of these losses.
fn lines_of(alloc: Global, losses: &Losses) -> Result<String, Fail> {
    let (size, _block, _taken, lost) = losses.least;
    let carriers = losses.carriers;
    let margin = size.saturating_sub(1);
    let mut text = format!(in alloc; "carriers {carriers}\nmargin {margin}\nkill")?;
    let mut digits = lost;
    for place in 0..16usize {
        if digits % 2 == 1 {
            let more = format!(in alloc; " {place}")?;
            text.push_str(more.as_str())?;
        }
        digits /= 2;
    }
    let more = format!(in alloc; "\nburst {}\n", losses.burst)?;
    text.push_str(more.as_str())?;
    Ok(text)
}

// What `check` prints of the session with symbols of these kinds.
fn printed(alloc: Global, plan: &Plan<'_>, places: &[Place]) -> Result<String, Fail> {
    let mut packets: Vec<Packet<'_>> = Vec::new(alloc);
    for place in places {
        if let Some(kind) = plan.kinds.get(place.kind) {
            let sent = (kind.block, kind.esi, &kind.symbol[..]);
            packets.push(if place.carries {
                Packet::Carrier(sent)
            } else {
                Packet::Plain(sent)
            })?;
        }
    }
    let session = session_of_packets(alloc, &plan.fti, packets.as_slice())?;
    let certificate = certificate_of(alloc, &plan.fti, plan.coefficients)?;
    let told = check(
        alloc,
        session.as_slice(),
        plan.object,
        certificate.as_slice(),
    )?;
    Ok(told.text)
}

// How many different packets a place may hold, at least one: each kind of symbol in so many forms,
// with the FTI, and without it where there are two.
fn choices(plan: &Plan<'_>, forms: usize) -> usize {
    plan.kinds.len().saturating_mul(forms).max(1)
}

// The session whose number is `code` among those of `len` packets.
fn session_at(
    alloc: Global,
    plan: &Plan<'_>,
    forms: usize,
    len: usize,
    code: usize,
) -> Result<Vec<Place>, Fail> {
    let mut places = Vec::new(alloc);
    let mut digits = code;
    let choices = choices(plan, forms).max(1);
    let forms = forms.max(1);
    for _place in 0..len {
        let choice = digits % choices;
        places.push(Place {
            kind: choice / forms,
            carries: choice % forms == 0,
        })?;
        digits /= choices;
    }
    Ok(places)
}

// Every session of up to `most` packets: the report's lines are those of all losses, where no block
// is short and there is a carrier.
fn try_sessions(
    rt: &impl Abort,
    alloc: Global,
    plan: &Plan<'_>,
    forms: usize,
    most: usize,
) -> Result<usize, Fail> {
    let mut yes = 0usize;
    let mut sessions = 1usize;
    let mut losses = 1usize;
    for len in 0..=most {
        for code in 0..sessions {
            let places = session_at(alloc, plan, forms, len, code)?;
            if !is_too_much(plan, places.as_slice(), 0) {
                let told = printed(alloc, plan, places.as_slice())?;
                let tried = lines_of(alloc, &all_losses(plan, places.as_slice(), losses))?;
                assert!(rt; told.as_str().ends_with(tried.as_str()), "{code} of {len}");
                yes = yes.saturating_add(1);
            }
        }
        sessions = sessions.saturating_mul(choices(plan, forms));
        losses = losses.saturating_mul(2);
    }
    Ok(yes)
}

#[test]
fn every_loss_of_one_block(rt: HostRuntime) -> Result<(), Fail> {
    let yes = try_sessions(&rt, rt.alloc(), &ONE_BLOCK, 1, 10)?;
    assert!(rt; yes > 1000);
    Ok(())
}

#[test]
fn every_loss_of_two_blocks(rt: HostRuntime) -> Result<(), Fail> {
    let yes = try_sessions(&rt, rt.alloc(), &TWO_BLOCKS, 1, 8)?;
    assert!(rt; yes > 1000);
    Ok(())
}

#[test]
fn every_loss_of_some_carriers(rt: HostRuntime) -> Result<(), Fail> {
    let yes = try_sessions(&rt, rt.alloc(), &ONE_BLOCK, 2, 6)?;
    assert!(rt; yes > 1000);
    let yes = try_sessions(&rt, rt.alloc(), &TWO_BLOCKS, 2, 5)?;
    assert!(rt; yes > 1000);
    Ok(())
}
