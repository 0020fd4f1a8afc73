use accumulators::{Accus, BadBcd, Move, Num, Shift, Word};
use status_word::StatusWord;

/// The accumulators with these values.
fn accus(accu1: u32, accu2: u32, accu3: u32, accu4: u32) -> Accus {
    Accus {
        accu1,
        accu2,
        accu3,
        accu4,
    }
}

// OS 16, OV 32, CC0 64, CC1 128; 3 and 4 stand in ACCU3 and ACCU4
#[test]
fn numbers_at_their_edges(rt: HostRuntime) {
    let rows = [
        // statement, ACCU2, ACCU1, ACCU1 afterwards, status word
        (Num::AddI, 0x7FFF, 0x00AA_0001, 0x00AA_8000, 112),
        (Num::SubI, 5, 7, 0xFFFE, 64),
        (Num::SubI, 0x8000, 1, 0x7FFF, 176),
        (Num::MulI, 300, 300, 0x0001_5F90, 176),
        (Num::MulI, 0xFFFE, 3, 0xFFFF_FFFA, 64),
        (Num::DivI, 7, 0xFFFE, 0x0001_FFFD, 64),
        (Num::DivI, 0xFFF9, 2, 0xFFFF_FFFD, 64),
        (Num::DivI, 1, 2, 0x0001_0000, 0),
        (Num::DivI, 0x8000, 0xFFFF, 0x8000, 176),
        (Num::AddD, 0x7FFF_FFFF, 1, 0x8000_0000, 112),
        (Num::SubD, 0, 1, 0xFFFF_FFFF, 64),
        (Num::MulD, 0x1_0000, 0x1_0000, 0, 176),
        (Num::MulD, 0x8000_0000, 2, 0, 112),
        (Num::DivD, 0x8000_0000, 0xFFFF_FFFF, 0x8000_0000, 176),
        (Num::ModD, 0x8000_0000, 0xFFFF_FFFF, 0, 0),
        (Num::ModD, 0xFFFF_FFF9, 2, 0xFFFF_FFFF, 64),
        (Num::ModD, 7, 0xFFFF_FFFE, 1, 128),
    ];
    for (op, accu2, accu1, wanted, word) in rows {
        let mut numbers = accus(accu1, accu2, 3, 4);
        let mut status = StatusWord::new();
        numbers.num(&mut status, op);
        assert_eq!(rt; numbers, accus(wanted, 3, 4, 4), "{op:?}");
        assert_eq!(rt; status.to_bits(), word, "{op:?}");
    }
    let alone = [
        (Num::DivI, 0x0005_0000, 0x0005_0000, 240),
        (Num::DivD, 0, 0, 240),
        (Num::ModD, 0, 0, 240),
        (Num::NegI, 0x1234_8000, 0x1234_8000, 112),
        (Num::NegI, 0x1234_0005, 0x1234_FFFB, 80),
        (Num::NegD, 0x8000_0000, 0x8000_0000, 112),
        (Num::NegD, 0, 0, 16),
    ];
    for (op, accu1, wanted, word) in alone {
        let mut numbers = accus(accu1, 9, 3, 4);
        let mut status = StatusWord::of_bits(16);
        numbers.num(&mut status, op);
        assert_eq!(rt; numbers, accus(wanted, 9, 3, 4), "{op:?}");
        assert_eq!(rt; status.to_bits(), word, "{op:?}");
    }
}

#[test]
fn shifts_at_their_edges(rt: HostRuntime) {
    let rows = [
        // statement, ACCU1, count, ACCU1 afterwards, status word
        (Shift::Slw, 0x1234_8001, 0, 0x1234_8001, 96),
        (Shift::Slw, 0x1234_8001, 1, 0x1234_0002, 128),
        (Shift::Slw, 0x1234_8001, 15, 0x1234_8000, 0),
        (Shift::Slw, 0x1234_8001, 16, 0x1234_0000, 128),
        (Shift::Slw, 0x1234_8001, 17, 0x1234_0000, 0),
        (Shift::Slw, 0x1234_8001, 255, 0x1234_0000, 0),
        (Shift::Srw, 0x1234_8001, 1, 0x1234_4000, 128),
        (Shift::Srw, 0x1234_8001, 15, 0x1234_0001, 0),
        (Shift::Srw, 0x1234_8001, 16, 0x1234_0000, 128),
        (Shift::Srw, 0x1234_8001, 17, 0x1234_0000, 0),
        (Shift::Ssi, 0x1234_8000, 1, 0x1234_C000, 0),
        (Shift::Ssi, 0x1234_8000, 15, 0x1234_FFFF, 0),
        (Shift::Ssi, 0x1234_8000, 16, 0x1234_FFFF, 128),
        (Shift::Ssi, 0x1234_8000, 255, 0x1234_FFFF, 128),
        (Shift::Sld, 0x8000_0001, 1, 2, 128),
        (Shift::Sld, 0x8000_0001, 31, 0x8000_0000, 0),
        (Shift::Sld, 0x8000_0001, 32, 0, 128),
        (Shift::Sld, 0x8000_0001, 33, 0, 0),
        (Shift::Srd, 0x8000_0001, 1, 0x4000_0000, 128),
        (Shift::Srd, 0x8000_0001, 32, 0, 128),
        (Shift::Srd, 0x8000_0001, 33, 0, 0),
        (Shift::Ssd, 0x8000_0000, 31, 0xFFFF_FFFF, 0),
        (Shift::Ssd, 0x8000_0000, 33, 0xFFFF_FFFF, 128),
        (Shift::Rld, 0x8000_0001, 1, 3, 128),
        (Shift::Rld, 0x8000_0001, 31, 0xC000_0000, 0),
        (Shift::Rld, 0x8000_0001, 32, 0x8000_0001, 128),
        (Shift::Rrd, 1, 1, 0x8000_0000, 128),
        (Shift::Rrd, 1, 64, 1, 0),
    ];
    for (op, accu1, count, wanted, word) in rows {
        let mut numbers = accus(accu1, 2, 3, 4);
        let mut status = StatusWord::of_bits(96);
        numbers.shift(&mut status, op, count);
        assert_eq!(rt; numbers, accus(wanted, 2, 3, 4), "{op:?} by {count}");
        assert_eq!(rt; status.to_bits(), word, "{op:?} by {count}");
    }
}

#[test]
fn words_and_digits(rt: HostRuntime) {
    let words = [
        (Word::And, false, None, 0xFF00_00F0, 128),
        (Word::Or, false, Some(0x000F), 0xFF00_F0FF, 128),
        (Word::Or, true, None, 0xFF0F_FFF0, 128),
        (Word::Xor, true, Some(0xFF00_F0F0), 0, 0),
    ];
    for (op, wide, constant, wanted, word) in words {
        let mut numbers = accus(0xFF00_F0F0, 0x0F0F_0FF0, 3, 4);
        let mut status = StatusWord::of_bits(96);
        numbers.word(&mut status, op, wide, constant);
        assert_eq!(rt; numbers, accus(wanted, 0x0F0F_0FF0, 3, 4));
        assert_eq!(rt; status.to_bits(), word);
    }
    let read = [
        (false, 0x0999, Ok(()), 999),
        (false, 0xABCD_8123, Ok(()), 0xABCD_FF85),
        (false, 0x7012, Ok(()), 12),
        (false, 0x0A00, Err(BadBcd), 0x0A00),
        (true, 0xF123_4567, Ok(()), 0xFFED_2979),
        (true, 0x0999_9999, Ok(()), 0x0098_967F),
        (true, 0x0A00_0000, Err(BadBcd), 0x0A00_0000),
    ];
    for (wide, accu1, answer, wanted) in read {
        let mut numbers = accus(accu1, 2, 3, 4);
        assert_eq!(rt; numbers.from_bcd(wide), answer);
        assert_eq!(rt; numbers, accus(wanted, 2, 3, 4));
    }
    let written = [
        (false, 999, 0x0999, 64),
        (false, 0x1234_FC19, 0x1234_F999, 64),
        (false, 1000, 1000, 112),
        (true, 0x0098_967F, 0x0999_9999, 64),
        (true, 0x0098_9680, 0x0098_9680, 112),
        (true, 0xFFFF_FFFF, 0xF000_0001, 64),
        (true, 0x8000_0000, 0x8000_0000, 112),
    ];
    for (wide, accu1, wanted, word) in written {
        let mut numbers = accus(accu1, 2, 3, 4);
        let mut status = StatusWord::of_bits(64);
        numbers.to_bcd(&mut status, wide);
        assert_eq!(rt; numbers, accus(wanted, 2, 3, 4));
        assert_eq!(rt; status.to_bits(), word);
    }
}

#[test]
fn moves_and_counts(rt: HostRuntime) {
    let before = accus(0x1122_8344, 2, 3, 4);
    let rows = [
        (Move::Push, accus(0x1122_8344, 0x1122_8344, 2, 3)),
        (Move::Pop, accus(2, 3, 4, 4)),
        (Move::Ent, accus(0x1122_8344, 2, 2, 3)),
        (Move::Leave, accus(0x1122_8344, 3, 4, 4)),
        (Move::Tak, accus(2, 0x1122_8344, 3, 4)),
        (Move::Caw, accus(0x1122_4483, 2, 3, 4)),
        (Move::Cad, accus(0x4483_2211, 2, 3, 4)),
        (Move::Invi, accus(0x1122_7CBB, 2, 3, 4)),
        (Move::Invd, accus(0xEEDD_7CBB, 2, 3, 4)),
        (Move::Itd, accus(0xFFFF_8344, 2, 3, 4)),
    ];
    for (op, wanted) in rows {
        let mut numbers = before;
        numbers.moves(op);
        assert_eq!(rt; numbers, wanted, "{op:?}");
    }
    let mut numbers = Accus::new();
    numbers.load(0x0001_FFFF);
    numbers.add_const(1, false);
    assert_eq!(rt; numbers, accus(0x0001_0000, 0, 0, 0));
    numbers.add_const(-1, true);
    assert_eq!(rt; numbers.accu1, 0xFFFF);
    numbers.inc(2, false);
    assert_eq!(rt; numbers.accu1, 0xFF01);
    numbers.inc(2, true);
    numbers.load(7);
    assert_eq!(rt; numbers, accus(7, 0xFFFF, 0, 0));
}
