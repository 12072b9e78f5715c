//! What datagrams give that no command prints. What commands print of them stands in transcripts.

use crate::check_tests::SESSION;
use crate::{ONE, is_shown_as};
use alc::PacketFault;
use coder::{Answer, DecodeFault, decode, decode_selection, one_answer};
use reception::isolation;
use session::{FrameFault, Pieces, Session};
use std::alloc::{AllocError, Global};
use std::test::Fail;

/// What an answer is to say.
#[derive(Clone, Copy)]
pub(crate) enum Said<'a> {
    Object(&'a [u8]),
    // The block, how many symbols it has, and how many it needs.
    Missing(u32, usize, usize),
    Fault(DecodeFault),
}

pub(crate) fn says(answer: &Answer, wanted: Said<'_>) -> bool {
    match (answer, wanted) {
        (Answer::Object(object), Said::Object(bytes)) => object.as_slice() == bytes,
        (Answer::Missing { block, have, need }, Said::Missing(number, some, all)) => {
            *block == number && *have == some && *need == all
        }
        (Answer::Fault(fault), Said::Fault(other)) => *fault == other,
        _ => false,
    }
}

/// Whether the decoder says this of datagrams.
pub(crate) fn decodes_to(
    alloc: Global,
    datagrams: &[&[u8]],
    wanted: Said<'_>,
) -> Result<bool, AllocError> {
    match decode(alloc, datagrams, ONE) {
        Ok(answer) => Ok(says(&answer, wanted)),
        Err(error) => Err(error),
    }
}

// Whether it says this of the session's datagrams at these places.
fn selects(
    alloc: Global,
    session: &Session,
    places: &[usize],
    wanted: Said<'_>,
) -> Result<bool, FrameFault> {
    match decode_selection(alloc, session, places, ONE) {
        Ok(answer) => Ok(says(&answer, wanted)),
        Err(fault) => Err(fault),
    }
}

#[test]
fn selections(rt: HostRuntime) -> Result<(), Fail> {
    let alloc = rt.alloc();
    let object = Said::Object(&[1, 2]);
    let session = Session::read(alloc, &mut Pieces::new(&SESSION, 100))?;
    one_answer();
    assert!(rt; selects(alloc, &session, &[2, 0, 2], object) == Ok(true));
    assert!(rt; selects(alloc, &session, &[1], Said::Missing(0, 1, 2)) == Ok(true));
    let no_place = Err(FrameFault::NoSuchPlace(4));
    assert!(rt; selects(alloc, &session, &[0, 4, 3], object) == no_place);
    isolation();
    Ok(())
}

#[test]
fn texts_of_faults(rt: HostRuntime) -> Result<(), Fail> {
    let no_packet = DecodeFault::Packet(0, PacketFault::TooShort);
    for (fault, text) in [
        (no_packet, "R1 Packet place 0 P1 TooShort"),
        (DecodeFault::OtherFti(4), "R3 OtherFti place 4"),
        (DecodeFault::SymbolLength(3), "R7 SymbolLength place 3"),
        (DecodeFault::Range(5), "R4 Range place 5"),
        (DecodeFault::Clash(1), "R5 Clash place 1"),
        (DecodeFault::NotCode(2), "R6 NotCode block 2"),
    ] {
        assert!(rt; is_shown_as(rt.alloc(), fault, text)?, "{text}");
    }
    Ok(())
}

// Of TSI 1 and TOI 1 with FTI (9, 2, 2, 3): the datagram of a symbol in block `sbn`.
fn of_nine(sbn: u8, esi: u8, symbol: [u8; 2]) -> [u8; 34] {
    let [first, second] = symbol;
    [
        0x10, 0xA0, 7, 5, 0, 0, 0, 0, 0, 0, 0, 1, 0, 0, 0, 1, 0x40, 3, 0, 0, 0, 0, 0, 9, 0, 2, 2,
        3, 0, 0, sbn, esi, first, second,
    ]
}

// Three blocks, the last of them padded.
const NINE: [u8; 9] = [1, 8, 0x40, 0x3A, 1, 2, 4, 1, 4];

// Some symbols are lost, and some come twice.
#[test]
fn an_object_of_three_blocks(rt: HostRuntime) -> Result<(), Fail> {
    let last = of_nine(2, 0, [4, 0]);
    let repair = of_nine(0, 2, [0xC2, 0x5E]);
    let second = of_nine(0, 1, [0x40, 0x3A]);
    let other_repair = of_nine(1, 2, [0x0E, 0x07]);
    let third = of_nine(1, 0, [1, 2]);
    let datagrams: [&[u8]; 7] = [
        &last,
        &repair,
        &second,
        &other_repair,
        &third,
        &last,
        &second,
    ];
    assert!(rt; decodes_to(rt.alloc(), &datagrams, Said::Object(&NINE))?);
    Ok(())
}
