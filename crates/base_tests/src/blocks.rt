use instruction_set::*;
use s7_base::*;
use std::alloc::Global;
use std::test::Fail;

fn request(prio: u8, ask: Ask) -> Request {
    Request { prio, ask }
}

#[test]
fn answers_fit_as_the_tables_say(rt: HostRuntime) {
    let read = Ask::ReadP { addr: 0, width: 1 };
    let job = Job {
        write: true,
        area: JobArea::M,
        at_byte: 10,
        width: 2,
        value: 65535,
    };
    let cases: [(Request, Answer, bool); 12] = [
        (request(1, Ask::Outputs([0; 64])), Answer::Done, true),
        (request(1, Ask::Inputs), Answer::Done, false),
        (request(1, Ask::Cycle), Answer::Go, true),
        (request(1, read), Answer::Value(255), true),
        (request(1, read), Answer::Value(256), false),
        (
            request(16, Ask::Tick),
            Answer::Alarm { ob: 40, info: 0 },
            false,
        ),
        (
            request(15, Ask::Tick),
            Answer::Alarm { ob: 40, info: 0 },
            true,
        ),
        (
            request(1, Ask::Tick),
            Answer::Alarm {
                ob: 70,
                info: 65536,
            },
            false,
        ),
        (request(1, Ask::Cycle), Answer::Job(job), true),
        (request(1, Ask::Inputs), Answer::Job(job), false),
        (
            request(30, Ask::Stop(StopCode::Depth)),
            Answer::CpuStop(StopCode::Cycle),
            true,
        ),
        (
            request(1, Ask::Cycle),
            Answer::CpuStop(StopCode::Depth),
            false,
        ),
    ];
    for (asked, answer, is_fit) in cases {
        assert_eq!(rt; fits(&asked, &answer), is_fit);
    }
    assert_eq!(rt;
        [priority(1), priority(38), priority(47), priority(72)],
        [1, 15, 23, 28]
    );
}

fn main_block(alloc: Global, temp: u16, bit: u8) -> Result<Vec<CodeBlock>, Fail> {
    // S M 1023.bit
    let set = Statement {
        op: 15,
        area: 3,
        bit,
        db: 0,
        value: 1023,
    };
    let statements = vec![in alloc; set]?;
    let main = CodeBlock::new(CodeKind::Ob, 1, temp, statements);
    Ok(vec![in alloc; main]?)
}

#[test]
fn blocks_are_kept_and_found(rt: HostRuntime) -> Result<(), Fail> {
    let alloc = rt.alloc();
    for (temp, bit, is_loaded) in [(0, 7, true), (0, 8, false), (2, 7, true), (3, 7, false)] {
        let blocks = Blocks::of(main_block(alloc, temp, bit)?, Vec::new(alloc));
        assert_eq!(rt; blocks.is_some(), is_loaded);
    }
    let Some(blocks) = Blocks::of(main_block(alloc, 0, 0)?, Vec::new(alloc)) else {
        return Err("refused".into());
    };
    let copied = blocks.copy(alloc).expect(&rt, "there is memory");
    let main = copied.code(CodeKind::Ob, 1).expect(&rt, "OB1 is loaded");
    assert_eq!(rt; main.statements().len(), 1);
    assert_eq!(rt;
        (main.kind(), main.number(), main.temp()),
        (CodeKind::Ob, 1, 0)
    );
    let data = DataBlock::new(3, vec![in alloc; 5u8]?);
    assert_eq!(rt; (data.number(), data.bytes().len()), (3, 1));
    assert!(rt; copied.code(CodeKind::Fc, 1).is_none() && copied.data_block(1).is_none());
    Ok(())
}

/// Operation, area, bit, data block, value; and whether it is a statement where there are 20 bytes of local data.
const STORED: [(u16, u8, u8, u16, u32, bool); 72] = [
    // A I 63.7, a byte in place of a bit, byte 64, a data block with I
    (0, 1, 7, 0, 63, true),
    (0, 1, 8, 0, 0, false),
    (0, 1, 0, 0, 64, false),
    (0, 1, 0, 1, 0, false),
    (5, 2, 0, 0, 64, false),
    (0, 3, 0, 0, 1023, true),
    (0, 3, 0, 0, 1024, false),
    (0, 4, 0, 0, 19, true),
    (0, 4, 0, 0, 20, false),
    (0, 5, 3, 255, 65535, true),
    (0, 5, 3, 256, 0, false),
    (0, 5, 3, 0, 65536, false),
    (0, 6, 3, 0, 65535, true),
    (0, 6, 3, 1, 0, false),
    (0, 7, 0, 0, 0, false),
    (0, 9, 0, 0, 255, true),
    (0, 9, 0, 0, 256, false),
    (0, 10, 1, 0, 0, false),
    (0, 14, 0, 0, 9, true),
    (0, 14, 0, 0, 10, false),
    (0, 0, 0, 0, 0, false),
    // O alone, and O( with an operand
    (6, 0, 0, 0, 0, true),
    (9, 1, 0, 0, 0, false),
    // = T, S C, S T, R T, R C, FP L, FP T
    (14, 9, 0, 0, 0, false),
    (15, 10, 0, 0, 0, true),
    (15, 9, 0, 0, 0, false),
    (16, 9, 0, 0, 0, true),
    (16, 10, 0, 0, 0, true),
    (21, 4, 0, 0, 19, true),
    (21, 9, 0, 0, 0, false),
    // L
    (27, 1, 8, 0, 63, true),
    (27, 1, 9, 0, 63, false),
    (27, 1, 10, 0, 60, true),
    (27, 1, 0, 0, 0, false),
    (27, 5, 11, 0, 0, false),
    (27, 7, 10, 0, 1020, true),
    (27, 7, 10, 0, 1021, false),
    (27, 8, 8, 0, 0, false),
    (27, 11, 0, 0, 65535, true),
    (27, 11, 0, 0, 65536, false),
    (27, 12, 0, 0, 0xffff_ffff, true),
    (27, 15, 0, 0, 0, true),
    (27, 15, 0, 0, 1, false),
    (27, 22, 0, 0, 0, true),
    (27, 23, 0, 0, 0, false),
    // T, LC, INC, +
    (28, 8, 9, 0, 1022, true),
    (28, 7, 8, 0, 0, false),
    (28, 11, 0, 0, 0, false),
    (29, 9, 0, 0, 0, true),
    (29, 1, 8, 0, 0, false),
    (37, 11, 0, 0, 256, false),
    (39, 12, 0, 0, 5, true),
    (39, 0, 0, 0, 0, false),
    // AW, AD, SSI, SSD
    (70, 0, 0, 0, 0, true),
    (70, 12, 0, 0, 0, false),
    (73, 12, 0, 0, 0, true),
    (76, 11, 0, 0, 15, true),
    (76, 11, 0, 0, 16, false),
    (83, 11, 0, 0, 32, true),
    (83, 11, 0, 0, 33, false),
    // SP T, CU T, OPN DB, OPN DI, CALL FC, CALL FB, CALL SFC 43, UC FB, NOP 1, and no operation
    (102, 9, 0, 0, 7, true),
    (108, 9, 0, 0, 7, false),
    (111, 5, 0, 0, 0, false),
    (112, 6, 0, 0, 255, true),
    (114, 16, 0, 0, 256, false),
    (115, 17, 0, 1, 0, true),
    (115, 17, 0, 0, 0, false),
    (116, 18, 0, 0, 43, true),
    (116, 18, 0, 0, 46, false),
    (119, 17, 0, 1, 0, false),
    (126, 11, 0, 0, 0, false),
    (128, 0, 0, 0, 0, false),
];

#[test]
fn statements_are_of_the_language_or_not(rt: HostRuntime) {
    for (op, area, bit, db, value, is_statement) in STORED {
        let stored = Statement {
            op,
            area,
            bit,
            db,
            value,
        };
        assert_eq!(rt; stored.is_of_language(20), is_statement, "{stored:?}");
    }
    assert_eq!(rt; instruction_set().len(), 128);
    let row = instruction_row(101).expect(&rt, "there is an operation 101");
    let mnemonic = row.mnemonic;
    assert_eq!(rt; row.operation, Operation::Loop);
    assert_eq!(rt; mnemonic, *b"LOOP\0");
    assert_eq!(rt; row.operation.number(), 101);
    assert_eq!(rt; instruction_row(128), None);
    assert_eq!(rt; [is_data_number(0), is_data_number(255)], [false, true]);
    assert_eq!(rt; DiagCode::default(), DiagCode::Start);
}

fn jump(op: u16, value: u32) -> Statement {
    Statement {
        op,
        area: 13,
        bit: 0,
        db: 0,
        value,
    }
}

const NOP: Statement = Statement {
    op: 125,
    area: 11,
    bit: 0,
    db: 0,
    value: 0,
};

/// A statement, and behind it another one so many times.
fn listed(
    alloc: Global,
    first: Statement,
    count: usize,
    other: Statement,
) -> Result<Vec<Statement>, Fail> {
    let mut statements = vec![in alloc; other; count]?;
    statements.insert(0, first)?;
    Ok(statements)
}

/// Whether a block is loaded beside an empty OB1.
fn is_loaded(alloc: Global, block: CodeBlock) -> Result<bool, Fail> {
    let mut codes = vec![in alloc; CodeBlock::new(CodeKind::Ob, 1, 0, Vec::new(alloc))]?;
    codes.push(block)?;
    Ok(Blocks::of(codes, Vec::new(alloc)).is_some())
}

#[test]
fn code_blocks_keep_their_limits(rt: HostRuntime) -> Result<(), Fail> {
    let alloc = rt.alloc();
    let heads = [
        (CodeKind::Ob, 2, 0, false),
        (CodeKind::Ob, 1, 0, false),
        (CodeKind::Ob, 122, 0, true),
        (CodeKind::Fb, 0, 256, true),
        (CodeKind::Fb, 0, 258, false),
        (CodeKind::Fc, 255, 3, false),
    ];
    for (kind, number, temp, is_fine) in heads {
        let block = CodeBlock::new(kind, number, temp, Vec::new(alloc));
        assert_eq!(rt; is_loaded(alloc, block)?, is_fine, "{kind:?} {number}");
    }
    // To the block's end and past it; 2,000 and 2,001 away; 4,000 and 4,001 statements; lists of a JL: empty, of
    // one, of another statement, of 255 and of 256.
    let jumps = [
        (84, 5, 4, NOP, true),
        (84, 6, 4, NOP, false),
        (101, 2000, 2000, NOP, true),
        (101, 2001, 2001, NOP, false),
        (84, 0, 3999, NOP, true),
        (84, 0, 4000, NOP, false),
        (85, 1, 4, jump(84, 0), false),
        (85, 2, 4, jump(84, 0), true),
        (85, 2, 4, NOP, false),
        (85, 256, 255, jump(84, 0), true),
        (85, 257, 256, jump(84, 0), false),
    ];
    for (op, target, count, other, is_fine) in jumps {
        let statements = listed(alloc, jump(op, target), count, other)?;
        let block = CodeBlock::new(CodeKind::Fc, 1, 0, statements);
        assert_eq!(rt; is_loaded(alloc, block)?, is_fine, "{op} {target}");
    }
    Ok(())
}

/// An empty OB1, and functions of so many statements each.
fn functions(alloc: Global, count: u8, each: usize) -> Result<Vec<CodeBlock>, Fail> {
    let mut codes = vec![in alloc; CodeBlock::new(CodeKind::Ob, 1, 0, Vec::new(alloc))]?;
    for number in 0..count {
        let statements = listed(alloc, jump(84, 0), each, NOP)?;
        codes.push(CodeBlock::new(CodeKind::Fc, number, 0, statements))?;
    }
    Ok(codes)
}

/// The data blocks from 1 up to a number, the first ones of so many bytes and the others of two.
fn data_blocks(alloc: Global, last: u8, wide: u8, bytes: usize) -> Result<Vec<DataBlock>, Fail> {
    let mut blocks = Vec::new(alloc);
    for number in 1..=last {
        let len = if number <= wide { bytes } else { 2 };
        blocks.push(DataBlock::new(number, vec![in alloc; 0u8; len]?))?;
    }
    Ok(blocks)
}

#[test]
fn blocks_together_keep_their_limits(rt: HostRuntime) -> Result<(), Fail> {
    let alloc = rt.alloc();
    let codes = Vec::new(alloc);
    assert!(rt; Blocks::of(codes, Vec::new(alloc)).is_none(), "no OB1");
    let codes = functions(alloc, 1, 0)?;
    let full = Blocks::of(codes, data_blocks(alloc, 254, 0, 2)?).expect(&rt, "256 blocks");
    let copied = full.copy(alloc).expect(&rt, "there is memory");
    let counts = (copied.codes().len(), copied.data_blocks().len());
    assert_eq!(rt; counts, (2, 254));
    // 12,000 statements and 12,004; 256 blocks and 257
    for (count, each, last, is_fine) in [
        (3, 3999, 0, true),
        (4, 3000, 0, false),
        (1, 0, 254, true),
        (1, 0, 255, false),
    ] {
        let codes = functions(alloc, count, each)?;
        let data = data_blocks(alloc, last, 0, 2)?;
        assert_eq!(rt;
            Blocks::of(codes, data).is_some(),
            is_fine,
            "{count} functions"
        );
    }
    // the bytes of one block, of all, and the pages of all: 256 and 257
    let sizes = [
        (1, 1, 8192, true),
        (1, 1, 8194, false),
        (1, 1, 3, false),
        (4, 4, 8192, true),
        (5, 4, 8192, false),
        (156, 100, 258, true),
        (157, 100, 258, false),
    ];
    for (last, wide, bytes, is_fine) in sizes {
        let data = data_blocks(alloc, last, wide, bytes)?;
        let codes = functions(alloc, 0, 0)?;
        assert_eq!(rt; Blocks::of(codes, data).is_some(), is_fine, "{last} blocks");
    }
    let mut codes = functions(alloc, 1, 1)?;
    codes.reverse();
    assert!(rt;
        Blocks::of(codes, Vec::new(alloc)).is_none(),
        "FC0 before OB1"
    );
    let mut data = data_blocks(alloc, 2, 0, 2)?;
    data.reverse();
    assert!(rt;
        Blocks::of(functions(alloc, 0, 0)?, data).is_none(),
        "DB2 before DB1"
    );
    let zero = vec![in alloc; DataBlock::new(0, Vec::new(alloc))]?;
    assert!(rt; Blocks::of(functions(alloc, 0, 0)?, zero).is_none(), "DB0");
    Ok(())
}
