//! Packets.
use crate::is_shown_as;
use alc::{PacketFault, one_reading, read, write};
use partition::{Fti, FtiError};
use std::test::Fail;

// A carrier: TSI 1, TOI 1, FTI (2, 1, 2, 3), source block 0, ESI 0, symbol 01.
const DATAGRAM: [u8; 33] = [
    0x10, 0xA0, 7, 5, 0, 0, 0, 0, 0, 0, 0, 1, 0, 0, 0, 1, 0x40, 3, 0, 0, 0, 0, 0, 2, 0, 1, 2, 3, 0,
    0, 0, 0, 1,
];

// The packet of `DATAGRAM` without FTI.
const PLAIN: [u8; 21] = [
    0x10, 0xA0, 4, 5, 0, 0, 0, 0, 0, 0, 0, 1, 0, 0, 0, 1, 0, 0, 0, 0, 1,
];

fn has_fault(datagram: &[u8], fault: PacketFault) -> bool {
    match read(datagram) {
        Ok(_) => false,
        Err(found) => found == fault,
    }
}

// Whether an FTI that a packet has is (2, 1, 2, 3).
fn is_the_fti(fti: &Fti) -> bool {
    fti.transfer_length() == 2
        && fti.symbol_length() == 1
        && fti.block_length() == 2
        && fti.max_symbols() == 3
}

// Whether the datagram is the packet above, but for its TSI and TOI, which are these.
fn is_carrier_of(datagram: &[u8], tsi: u64, toi: u128) -> bool {
    match read(datagram) {
        Ok(packet) => {
            let right_fti = match &packet.fti {
                Some(fti) => is_the_fti(fti),
                None => false,
            };
            right_fti
                && packet.tsi == tsi
                && packet.toi == toi
                && packet.sbn == 0
                && packet.esi == 0
                && packet.symbol == [1].as_slice()
        }
        Err(_) => false,
    }
}

// Whether the datagram is a packet without FTI of TSI 1 and TOI 1, with the rest as told.
fn is_plain(datagram: &[u8], sbn: u32, esi: u8, symbol: &[u8]) -> bool {
    match read(datagram) {
        Ok(packet) => {
            packet.fti.is_none()
                && packet.tsi == 1
                && packet.toi == 1
                && packet.sbn == sbn
                && packet.esi == esi
                && packet.symbol == symbol
        }
        Err(_) => false,
    }
}

#[test]
fn one_byte_changed(rt: HostRuntime) {
    for (at, byte, fault) in [
        (0, 0x20, PacketFault::Version),
        (0, 0x11, PacketFault::Psi),
        (3, 0, PacketFault::Codepoint),
        (1, 0x20, PacketFault::NoIdentity),
        (1, 0x80, PacketFault::NoIdentity),
        (2, 3, PacketFault::HeaderLength),
        (2, 9, PacketFault::HeaderLength),
        (2, 6, PacketFault::Extension),
        (17, 0, PacketFault::Extension),
        (17, 2, PacketFault::FtiLength),
        (17, 4, PacketFault::Extension),
        (23, 0, PacketFault::FtiValue(FtiError::LengthZero)),
        (25, 0, PacketFault::FtiValue(FtiError::SymbolZero)),
        (26, 0, PacketFault::FtiValue(FtiError::BlockZero)),
        (27, 1, PacketFault::FtiValue(FtiError::MaxBelowBlock)),
    ] {
        let mut datagram = DATAGRAM;
        if let Some(place) = datagram.get_mut(at) {
            *place = byte;
        }
        assert!(rt; has_fault(&datagram, fault), "byte {at} is {byte}");
    }
}

#[test]
fn other_lengths(rt: HostRuntime) {
    assert!(rt; has_fault(&DATAGRAM[..3], PacketFault::TooShort));
    assert!(rt; has_fault(&DATAGRAM[..32], PacketFault::PayloadLength));
    let longer = [
        0x10, 0xA0, 7, 5, 0, 0, 0, 0, 0, 0, 0, 1, 0, 0, 0, 1, 0x40, 3, 0, 0, 0, 0, 0, 2, 0, 1, 2,
        3, 0, 0, 0, 0, 1, 0,
    ];
    assert!(rt; has_fault(&longer, PacketFault::PayloadLength));
}

// Where the header ends before EXT_FTI its bytes are payload ID and symbol, and one of another type
// is passed over.
#[test]
fn packets_without_fti(rt: HostRuntime) {
    assert!(rt; is_plain(&PLAIN, 0, 0, &[1]));
    let mut short_header = DATAGRAM;
    short_header[2] = 4;
    let symbol = [0, 0, 0, 2, 0, 1, 2, 3, 0, 0, 0, 0, 1];
    assert!(rt; is_plain(&short_header, 0x40_0300, 0, &symbol));
    let mut other_type = DATAGRAM;
    other_type[16] = 0x41;
    assert!(rt; is_plain(&other_type, 0, 0, &[1]));
    for size in 16..21usize {
        assert!(rt;
            has_fault(&PLAIN[..size], PacketFault::PayloadLength),
            "{size} bytes"
        );
    }
    let greatest = [
        0x10, 0xA0, 4, 5, 0, 0, 0, 0, 0, 0, 0, 1, 0, 0, 0, 1, 255, 255, 255, 255, 7, 8, 9,
    ];
    assert!(rt; is_plain(&greatest, 0xFF_FFFF, 255, &[7, 8, 9]));
}

#[test]
fn the_extension_twice(rt: HostRuntime) {
    let datagram = [
        0x10, 0xA0, 0x0A, 5, 0, 0, 0, 0, 0, 0, 0, 1, 0, 0, 0, 1, 0x40, 3, 0, 0, 0, 0, 0, 2, 0, 1,
        2, 3, 0x40, 3, 0, 0, 0, 0, 0, 2, 0, 1, 2, 3, 0, 0, 0, 0, 1,
    ];
    assert!(rt; has_fault(&datagram, PacketFault::TwoFti));
}

#[test]
fn other_forms_of_one_packet(rt: HostRuntime) {
    one_reading();
    assert!(rt; is_carrier_of(&DATAGRAM, 1, 1));
    let flags = [
        0x10, 0xAF, 7, 5, 0, 0, 0, 0, 0, 0, 0, 1, 0, 0, 0, 1, 0x40, 3, 0, 0, 0, 0, 0, 2, 0, 1, 2,
        3, 0, 0, 0, 0, 1,
    ];
    assert!(rt; is_carrier_of(&flags, 1, 1), "Res, A and B are set");
    let control = [
        0x14, 0xA0, 8, 5, 0, 0, 0, 0, 0, 0, 0, 0, 0, 0, 0, 1, 0, 0, 0, 1, 0x40, 3, 0, 0, 0, 0, 0,
        2, 0, 1, 2, 3, 0, 0, 0, 0, 1,
    ];
    assert!(rt; is_carrier_of(&control, 1, 1), "CCI of eight bytes");
    let word = [
        0x10, 0xA0, 8, 5, 0, 0, 0, 0, 0, 0, 0, 1, 0, 0, 0, 1, 0xC8, 0, 0, 0, 0x40, 3, 0, 0, 0, 0,
        0, 2, 0, 1, 2, 3, 0, 0, 0, 0, 1,
    ];
    assert!(rt; is_carrier_of(&word, 1, 1), "an extension of one word");
    let length = [
        0x10, 0xA0, 8, 5, 0, 0, 0, 0, 0, 0, 0, 1, 0, 0, 0, 1, 0, 1, 0, 0, 0x40, 3, 0, 0, 0, 0, 0,
        2, 0, 1, 2, 3, 0, 0, 0, 0, 1,
    ];
    assert!(rt; is_carrier_of(&length, 1, 1), "an extension with a length");
    let narrow = [
        0x10, 0x10, 6, 5, 0, 0, 0, 0, 0, 1, 0, 1, 0x40, 3, 0, 0, 0, 0, 0, 2, 0, 1, 2, 3, 0, 0, 0,
        0, 1,
    ];
    assert!(rt; is_carrier_of(&narrow, 1, 1), "TSI and TOI of 16 bits");
}

#[test]
fn the_widest_identity(rt: HostRuntime) {
    let datagram = [
        0x10, 0xF0, 0x0A, 5, 0, 0, 0, 0, 0xFF, 0xFE, 0xFD, 0xFC, 0xFB, 0xFA, 1, 2, 3, 4, 5, 6, 7,
        8, 9, 10, 11, 12, 13, 14, 0x40, 3, 0, 0, 0, 0, 0, 2, 0, 1, 2, 3, 0, 0, 0, 0, 1,
    ];
    assert!(rt;
        is_carrier_of(
            &datagram,
            0xFFFE_FDFC_FBFA,
            0x0102_0304_0506_0708_090A_0B0C_0D0E
        )
    );
}

// A packet is written in front, and what stands behind it stays.
#[test]
fn a_packet_is_written(rt: HostRuntime) -> Result<(), Fail> {
    let mut out = [7; 40];
    let fti = Fti::new(2, 1, 2, 3)?;
    assert!(rt; 0 < fti.block_count() && 0 < fti.n(0));
    assert!(rt; write(1, 1, Some(&fti), 0, 0, &[1], &mut out) == 33);
    assert!(rt; &out[..33] == DATAGRAM.as_slice());
    assert!(rt; &out[33..] == [7; 7].as_slice());
    Ok(())
}

#[test]
fn a_packet_without_fti_is_written(rt: HostRuntime) {
    let mut out = [7; 40];
    assert!(rt; write(1, 1, None, 0, 0, &[1], &mut out) == 21);
    assert!(rt; &out[..21] == PLAIN.as_slice());
    assert!(rt; &out[21..] == [7; 19].as_slice());
    assert!(rt; write(1, 1, None, 0xFF_FFFF, 255, &[7, 8, 9], &mut out) == 23);
    assert!(rt; &out[16..24] == [255, 255, 255, 255, 7, 8, 9, 7].as_slice());
}

#[test]
fn texts(rt: HostRuntime) -> Result<(), Fail> {
    for (fault, text) in [
        (PacketFault::TooShort, "P1 TooShort"),
        (PacketFault::Version, "P2 Version"),
        (PacketFault::Psi, "P3 Psi"),
        (PacketFault::Codepoint, "P4 Codepoint"),
        (PacketFault::NoIdentity, "P5 NoIdentity"),
        (PacketFault::HeaderLength, "P6 HeaderLength"),
        (PacketFault::Extension, "P7 Extension"),
        (PacketFault::FtiLength, "P8 FtiLength"),
        (PacketFault::TwoFti, "P9 TwoFti"),
        (
            PacketFault::FtiValue(FtiError::TooManyBlocks),
            "P11 FtiValue F6 TooManyBlocks",
        ),
        (PacketFault::PayloadLength, "P12 PayloadLength"),
    ] {
        assert!(rt; is_shown_as(rt.alloc(), fault, text)?, "{text}");
    }
    Ok(())
}
