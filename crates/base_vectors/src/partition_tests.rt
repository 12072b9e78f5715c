//! FTIs and source blocks.
use crate::is_shown_as;
use partition::Fti;
use std::test::Fail;

// Whether the object has block `b`, of `k` source symbols and `n` encoding symbols, the first of
// which is at `start`.
fn has_block(fti: &Fti, b: u32, k: usize, n: usize, start: u64) -> bool {
    b < fti.block_count() && fti.k(b) == k && fti.n(b) == n && fti.start(b) == start
}

// Whether the FTI has these four numbers.
fn has_numbers(fti: &Fti, l: u64, e: u16, b: u8, max_n: u8) -> bool {
    fti.transfer_length() == l
        && fti.symbol_length() == e
        && fti.block_length() == b
        && fti.max_symbols() == max_n
}

#[test]
fn ten_symbols(rt: HostRuntime) -> Result<(), Fail> {
    let fti = Fti::new(10, 1, 4, 6)?;
    assert!(rt; has_numbers(&fti, 10, 1, 4, 6));
    assert!(rt; fti.symbol_count() == 10);
    assert!(rt; fti.block_count() == 3);
    assert!(rt; fti.last_length() == 1);
    for (b, k, n, start) in [(0, 4, 6, 0), (1, 3, 4, 4), (2, 3, 4, 7)] {
        assert!(rt; has_block(&fti, b, k, n, start), "block {b}");
    }
    Ok(())
}

#[test]
fn a_terabyte(rt: HostRuntime) -> Result<(), Fail> {
    let fti = Fti::new(1 << 40, 65_475, 255, 255)?;
    assert!(rt; fti.symbol_count() == 16_792_847);
    assert!(rt; fti.block_count() == 65_855);
    for (b, k, start) in [
        (0, 255, 0),
        (65_676, 255, 16_747_380),
        (65_677, 254, 16_747_635),
        (65_854, 254, 16_792_593),
    ] {
        assert!(rt; has_block(&fti, b, k, k, start), "block {b}");
    }
    Ok(())
}

#[test]
fn faults(rt: HostRuntime) -> Result<(), Fail> {
    for (l, e, b, max_n, text) in [
        (0, 1, 4, 6, "F1 LengthZero"),
        (0, 0, 4, 6, "F1 LengthZero"),
        (1 << 48, 1, 4, 6, "F2 LengthTooGreat"),
        (1 << 48, 0, 4, 6, "F2 LengthTooGreat"),
        (10, 0, 4, 6, "F3 SymbolZero"),
        (10, 0, 0, 6, "F3 SymbolZero"),
        (10, 1, 0, 6, "F4 BlockZero"),
        (10, 1, 4, 3, "F5 MaxBelowBlock"),
        (1 << 40, 1, 2, 1, "F5 MaxBelowBlock"),
        ((1 << 48) - 1, 65_475, 255, 255, "F6 TooManyBlocks"),
        (16_777_217, 1, 1, 1, "F6 TooManyBlocks"),
    ] {
        let told = match Fti::new(l, e, b, max_n) {
            Ok(_) => false,
            Err(fault) => is_shown_as(rt.alloc(), fault, text)?,
        };
        assert!(rt; told, "{text} of {l} bytes");
    }
    let fti = Fti::new(16_777_216, 1, 1, 1)?;
    assert!(rt; fti.block_count() == 1 << 24);
    Ok(())
}
