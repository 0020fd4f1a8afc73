use s7_base::CodeKind;
use std::alloc::Global;
use std::process::Abort;
use std::test::Fail;
use stl_decl::{Layout, declarations};
use stl_lex::tokens;
use stl_reader::*;

/// Each statement as operation, area, bit, number of the data block and value; or a fault as 1000, its kind and its
/// line.
fn shown(alloc: Global, read: Result<(Body, u32), ReadError>) -> Result<Vec<u32>, Fail> {
    let mut all = Vec::new(alloc);
    match read {
        Ok((read, _)) => {
            for line in read.statements() {
                let s = line.statement;
                let fields = [
                    s.op as u32,
                    s.area as u32,
                    s.bit as u32,
                    s.db as u32,
                    s.value,
                ];
                all.extend_from_slice(fields.as_slice())?;
            }
        }
        Err(ReadError::Fault(fault)) => {
            all.extend_from_slice([1000, fault.kind as u32, fault.line].as_slice())?;
        }
        Err(ReadError::NoMemory) => return Err(Fail::from("no memory")),
    }
    Ok(all)
}

/// A body without names.
fn fields(alloc: Global, kind: CodeKind, text: &[u8]) -> Result<Vec<u32>, Fail> {
    if text.len() > 1_048_576 {
        return Err(Fail::from("too long"));
    }
    let Ok(found) = tokens(alloc, text) else {
        return Err(Fail::from("no tokens"));
    };
    let temps = Layout::new(alloc);
    shown(alloc, body(alloc, text, &found, 0, kind, &temps))
}

/// A body behind its declarations and BEGIN.
fn with_names(alloc: Global, text: &[u8]) -> Result<Vec<u32>, Fail> {
    if text.len() > 1_048_576 {
        return Err(Fail::from("too long"));
    }
    let Ok(found) = tokens(alloc, text) else {
        return Err(Fail::from("no tokens"));
    };
    let Ok((temps, begin)) = declarations(alloc, text, &found, 0) else {
        return Err(Fail::from("no declarations"));
    };
    let from = begin.saturating_add(1);
    if from as usize > found.as_slice().len() {
        return Err(Fail::from("no BEGIN"));
    }
    shown(alloc, body(alloc, text, &found, from, CodeKind::Fc, &temps))
}

/// A body behind declarations of its own.
fn behind_names(alloc: Global, names: &[u8], text: &[u8]) -> Result<Vec<u32>, Fail> {
    let mut whole = names.to_vec(alloc)?;
    whole.extend_from_slice(text)?;
    with_names(alloc, whole.as_slice())
}

fn in_function(alloc: Global, statement: &[u8]) -> Result<Vec<u8>, Fail> {
    let mut text = statement.to_vec(alloc)?;
    text.extend_from_slice(b"; END_FUNCTION")?;
    Ok(text)
}

/// Each statement is read as these fields.
fn assert_rows(rt: &impl Abort, alloc: Global, rows: &[(&[u8], [u32; 5])]) -> Result<(), Fail> {
    for row in rows {
        let (text, want) = *row;
        let text = in_function(alloc, text)?;
        assert_eq!(rt;
            fields(alloc, CodeKind::Fc, text.as_slice())?.as_slice(),
            want.as_slice()
        );
    }
    Ok(())
}

#[test]
fn bits_and_moves_alone(rt: HostRuntime) -> Result<(), Fail> {
    let rows: [(&[u8], [u32; 5]); 23] = [
        (b"O", [6, 0, 0, 0, 0]),
        (b"A(", [7, 0, 0, 0, 0]),
        (b"AN(", [8, 0, 0, 0, 0]),
        (b"O(", [9, 0, 0, 0, 0]),
        (b"ON(", [10, 0, 0, 0, 0]),
        (b"X(", [11, 0, 0, 0, 0]),
        (b"XN(", [12, 0, 0, 0, 0]),
        (b")", [13, 0, 0, 0, 0]),
        (b"NOT", [17, 0, 0, 0, 0]),
        (b"SET", [18, 0, 0, 0, 0]),
        (b"CLR", [19, 0, 0, 0, 0]),
        (b"SAVE", [20, 0, 0, 0, 0]),
        (b"MCRA", [23, 0, 0, 0, 0]),
        (b"MCRD", [24, 0, 0, 0, 0]),
        (b"MCR(", [25, 0, 0, 0, 0]),
        (b")MCR", [26, 0, 0, 0, 0]),
        (b"PUSH", [30, 0, 0, 0, 0]),
        (b"POP", [31, 0, 0, 0, 0]),
        (b"ENT", [32, 0, 0, 0, 0]),
        (b"LEAVE", [33, 0, 0, 0, 0]),
        (b"TAK", [34, 0, 0, 0, 0]),
        (b"CAW", [35, 0, 0, 0, 0]),
        (b"CAD", [36, 0, 0, 0, 0]),
    ];
    assert_rows(&rt, rt.alloc(), &rows)
}

#[test]
fn numbers_alone(rt: HostRuntime) -> Result<(), Fail> {
    let rows: [(&[u8], [u32; 5]); 30] = [
        (b"+I", [40, 0, 0, 0, 0]),
        (b"-I", [41, 0, 0, 0, 0]),
        (b"*I", [42, 0, 0, 0, 0]),
        (b"/I", [43, 0, 0, 0, 0]),
        (b"+D", [44, 0, 0, 0, 0]),
        (b"-D", [45, 0, 0, 0, 0]),
        (b"*D", [46, 0, 0, 0, 0]),
        (b"/D", [47, 0, 0, 0, 0]),
        (b"MOD", [48, 0, 0, 0, 0]),
        (b"NEGI", [49, 0, 0, 0, 0]),
        (b"NEGD", [50, 0, 0, 0, 0]),
        (b"INVI", [51, 0, 0, 0, 0]),
        (b"INVD", [52, 0, 0, 0, 0]),
        (b"BTI", [53, 0, 0, 0, 0]),
        (b"ITB", [54, 0, 0, 0, 0]),
        (b"BTD", [55, 0, 0, 0, 0]),
        (b"DTB", [56, 0, 0, 0, 0]),
        (b"ITD", [57, 0, 0, 0, 0]),
        (b"==I", [58, 0, 0, 0, 0]),
        (b"<>I", [59, 0, 0, 0, 0]),
        (b">I", [60, 0, 0, 0, 0]),
        (b"<I", [61, 0, 0, 0, 0]),
        (b">=I", [62, 0, 0, 0, 0]),
        (b"<=I", [63, 0, 0, 0, 0]),
        (b"==D", [64, 0, 0, 0, 0]),
        (b"<>D", [65, 0, 0, 0, 0]),
        (b">D", [66, 0, 0, 0, 0]),
        (b"<D", [67, 0, 0, 0, 0]),
        (b">=D", [68, 0, 0, 0, 0]),
        (b"<=D", [69, 0, 0, 0, 0]),
    ];
    assert_rows(&rt, rt.alloc(), &rows)
}

#[test]
fn words_and_ends_alone(rt: HostRuntime) -> Result<(), Fail> {
    let rows: [(&[u8], [u32; 5]); 18] = [
        (b"AW", [70, 0, 0, 0, 0]),
        (b"OW", [71, 0, 0, 0, 0]),
        (b"XOW", [72, 0, 0, 0, 0]),
        (b"AD", [73, 0, 0, 0, 0]),
        (b"OD", [74, 0, 0, 0, 0]),
        (b"XOD", [75, 0, 0, 0, 0]),
        (b"SSI", [76, 0, 0, 0, 0]),
        (b"SLW", [77, 0, 0, 0, 0]),
        (b"SRW", [78, 0, 0, 0, 0]),
        (b"SSD", [79, 0, 0, 0, 0]),
        (b"SLD", [80, 0, 0, 0, 0]),
        (b"SRD", [81, 0, 0, 0, 0]),
        (b"RLD", [82, 0, 0, 0, 0]),
        (b"RRD", [83, 0, 0, 0, 0]),
        (b"CDB", [113, 0, 0, 0, 0]),
        (b"BE", [122, 0, 0, 0, 0]),
        (b"BEC", [123, 0, 0, 0, 0]),
        (b"BEU", [124, 0, 0, 0, 0]),
    ];
    assert_rows(&rt, rt.alloc(), &rows)
}

#[test]
fn bits(rt: HostRuntime) -> Result<(), Fail> {
    let rows: [(&[u8], [u32; 5]); 31] = [
        (b"A I 0.0", [0, 1, 0, 0, 0]),
        (b"AN Q 63.7", [1, 2, 7, 0, 63]),
        (b"O M 1023.7", [2, 3, 7, 0, 1023]),
        (b"ON DBX 65535.7", [3, 5, 7, 0, 65535]),
        (b"X DIX 4.5", [4, 6, 5, 0, 4]),
        (b"XN DB255.DBX 2.1", [5, 5, 1, 255, 2]),
        (b"a db001.dbx 2.1", [0, 5, 1, 1, 2]),
        (b"A T 255", [0, 9, 0, 0, 255]),
        (b"A C 0", [0, 10, 0, 0, 0]),
        (b"A BR", [0, 14, 0, 0, 0]),
        (b"AN OV", [1, 14, 0, 0, 1]),
        (b"O OS", [2, 14, 0, 0, 2]),
        (b"ON UO", [3, 14, 0, 0, 3]),
        (b"X ==0", [4, 14, 0, 0, 4]),
        (b"XN <>0", [5, 14, 0, 0, 5]),
        (b"A >0", [0, 14, 0, 0, 6]),
        (b"AN <0", [1, 14, 0, 0, 7]),
        (b"O >=0", [2, 14, 0, 0, 8]),
        (b"ON <=0", [3, 14, 0, 0, 9]),
        (b"A == 0", [0, 14, 0, 0, 4]),
        (b"O == 0", [2, 14, 0, 0, 4]),
        (b"= Q 1_0.3", [14, 2, 3, 0, 10]),
        (b"=Q 4.0", [14, 2, 0, 0, 4]),
        (b"S M 5.6", [15, 3, 6, 0, 5]),
        (b"S C 255", [15, 10, 0, 0, 255]),
        (b"S DIX 65535.0", [15, 6, 0, 0, 65535]),
        (b"R I 1.2", [16, 1, 2, 0, 1]),
        (b"R T 3", [16, 9, 0, 0, 3]),
        (b"R C 4", [16, 10, 0, 0, 4]),
        (b"FP M 10.0", [21, 3, 0, 0, 10]),
        (b"FN DB1.DBX 0.7", [22, 5, 7, 1, 0]),
    ];
    assert_rows(&rt, rt.alloc(), &rows)
}

#[test]
fn values(rt: HostRuntime) -> Result<(), Fail> {
    let rows: [(&[u8], [u32; 5]); 28] = [
        (b"L IB 63", [27, 1, 8, 0, 63]),
        (b"L IW 62", [27, 1, 9, 0, 62]),
        (b"L ID 60", [27, 1, 10, 0, 60]),
        (b"L QB 0", [27, 2, 8, 0, 0]),
        (b"L QW 2", [27, 2, 9, 0, 2]),
        (b"L QD 4", [27, 2, 10, 0, 4]),
        (b"L MB 1023", [27, 3, 8, 0, 1023]),
        (b"L MW 1022", [27, 3, 9, 0, 1022]),
        (b"L MD 1020", [27, 3, 10, 0, 1020]),
        (b"L DBB 65535", [27, 5, 8, 0, 65535]),
        (b"L DBW 65534", [27, 5, 9, 0, 65534]),
        (b"L DBD 65532", [27, 5, 10, 0, 65532]),
        (b"L DIB 1", [27, 6, 8, 0, 1]),
        (b"L DIW 2", [27, 6, 9, 0, 2]),
        (b"L DID 4", [27, 6, 10, 0, 4]),
        (b"L DB7.DBB 1", [27, 5, 8, 7, 1]),
        (b"L DB8.DBW 2", [27, 5, 9, 8, 2]),
        (b"L DB9.DBD 4", [27, 5, 10, 9, 4]),
        (b"L PIB 1023", [27, 7, 8, 0, 1023]),
        (b"L PIW 1022", [27, 7, 9, 0, 1022]),
        (b"L PID 1020", [27, 7, 10, 0, 1020]),
        (b"L T 1", [27, 9, 0, 0, 1]),
        (b"L C 2", [27, 10, 0, 0, 2]),
        (b"L STW", [27, 15, 0, 0, 0]),
        (b"L DBLG", [27, 19, 0, 0, 0]),
        (b"L DBNO", [27, 20, 0, 0, 0]),
        (b"L DILG", [27, 21, 0, 0, 0]),
        (b"L DINO", [27, 22, 0, 0, 0]),
    ];
    assert_rows(&rt, rt.alloc(), &rows)
}

#[test]
fn constants(rt: HostRuntime) -> Result<(), Fail> {
    let rows: [(&[u8], [u32; 5]); 19] = [
        (b"L 5", [27, 11, 0, 0, 5]),
        (b"L +32767", [27, 11, 0, 0, 32767]),
        (b"L -32768", [27, 11, 0, 0, 32768]),
        (b"L - 1", [27, 11, 0, 0, 65535]),
        (b"L L#-1", [27, 12, 0, 0, 4294967295]),
        (b"L L#5", [27, 12, 0, 0, 5]),
        (b"L B#16#FF", [27, 11, 0, 0, 255]),
        (b"L W#16#8214", [27, 11, 0, 0, 33300]),
        (b"L DWORD#16#1_0000", [27, 12, 0, 0, 65536]),
        (b"L 2#1000_0000_0000_0001", [27, 11, 0, 0, 32769]),
        (b"L 2#0_0000_0000_0000_0001", [27, 12, 0, 0, 1]),
        (b"L C#123", [27, 11, 0, 0, 291]),
        (b"L S5T#2S", [27, 11, 0, 0, 512]),
        (b"L S5T#1H", [27, 11, 0, 0, 13152]),
        (b"L T#1S", [27, 12, 0, 0, 1000]),
        (b"L 'a'", [27, 11, 0, 0, 97]),
        (b"L 'ab'", [27, 11, 0, 0, 24930]),
        (b"L 'abc'", [27, 12, 0, 0, 6382179]),
        (b"L 'abcd'", [27, 12, 0, 0, 1633837924]),
    ];
    assert_rows(&rt, rt.alloc(), &rows)
}

#[test]
fn transfers_counts_and_words(rt: HostRuntime) -> Result<(), Fail> {
    let rows: [(&[u8], [u32; 5]); 29] = [
        (b"T IB 0", [28, 1, 8, 0, 0]),
        (b"T MW 2", [28, 3, 9, 0, 2]),
        (b"T DB3.DBW 6", [28, 5, 9, 3, 6]),
        (b"T PQB 1023", [28, 8, 8, 0, 1023]),
        (b"T PQW 1022", [28, 8, 9, 0, 1022]),
        (b"T PQD 1020", [28, 8, 10, 0, 1020]),
        (b"T STW", [28, 15, 0, 0, 0]),
        (b"LC T 5", [29, 9, 0, 0, 5]),
        (b"LC C 6", [29, 10, 0, 0, 6]),
        (b"INC 255", [37, 11, 0, 0, 255]),
        (b"DEC 0", [38, 11, 0, 0, 0]),
        (b"+ 5", [39, 11, 0, 0, 5]),
        (b"+ -5", [39, 11, 0, 0, 65531]),
        (b"+5", [39, 11, 0, 0, 5]),
        (b"+L#-2", [39, 12, 0, 0, 4294967294]),
        (b"AW W#16#FFFF", [70, 11, 0, 0, 65535]),
        (b"OW WORD#16#1", [71, 11, 0, 0, 1]),
        (b"XOW W#16#0", [72, 11, 0, 0, 0]),
        (b"AD DW#16#FFFF_FFFF", [73, 12, 0, 0, 4294967295]),
        (b"OD DW#16#1", [74, 12, 0, 0, 1]),
        (b"XOD DWORD#16#2", [75, 12, 0, 0, 2]),
        (b"SSI 15", [76, 11, 0, 0, 15]),
        (b"SLW 1", [77, 11, 0, 0, 1]),
        (b"SRW 0", [78, 11, 0, 0, 0]),
        (b"SSD 32", [79, 11, 0, 0, 32]),
        (b"SLD 31", [80, 11, 0, 0, 31]),
        (b"SRD 2", [81, 11, 0, 0, 2]),
        (b"RLD 3", [82, 11, 0, 0, 3]),
        (b"RRD 4", [83, 11, 0, 0, 4]),
    ];
    assert_rows(&rt, rt.alloc(), &rows)
}

#[test]
fn jumps(rt: HostRuntime) -> Result<(), Fail> {
    let rows: [(&[u8], [u32; 5]); 18] = [
        (b"JU M001", [84, 13, 0, 0, 0]),
        (b"JL M001", [85, 13, 0, 0, 0]),
        (b"JC M001", [86, 13, 0, 0, 0]),
        (b"JCN M001", [87, 13, 0, 0, 0]),
        (b"JCB M001", [88, 13, 0, 0, 0]),
        (b"JNB M001", [89, 13, 0, 0, 0]),
        (b"JBI M001", [90, 13, 0, 0, 0]),
        (b"JNBI M001", [91, 13, 0, 0, 0]),
        (b"JO M001", [92, 13, 0, 0, 0]),
        (b"JOS M001", [93, 13, 0, 0, 0]),
        (b"JZ M001", [94, 13, 0, 0, 0]),
        (b"JN M001", [95, 13, 0, 0, 0]),
        (b"JP M001", [96, 13, 0, 0, 0]),
        (b"JM M001", [97, 13, 0, 0, 0]),
        (b"JPZ M001", [98, 13, 0, 0, 0]),
        (b"JMZ M001", [99, 13, 0, 0, 0]),
        (b"JUO M001", [100, 13, 0, 0, 0]),
        (b"LOOP M001", [101, 13, 0, 0, 0]),
    ];
    assert_rows(&rt, rt.alloc(), &rows)
}

#[test]
fn timers_and_blocks(rt: HostRuntime) -> Result<(), Fail> {
    let rows: [(&[u8], [u32; 5]); 22] = [
        (b"SP T 0", [102, 9, 0, 0, 0]),
        (b"SE T 1", [103, 9, 0, 0, 1]),
        (b"SD T 2", [104, 9, 0, 0, 2]),
        (b"SS T 3", [105, 9, 0, 0, 3]),
        (b"SF T 255", [106, 9, 0, 0, 255]),
        (b"FR T 5", [107, 9, 0, 0, 5]),
        (b"CU C 255", [108, 10, 0, 0, 255]),
        (b"CD C 1", [109, 10, 0, 0, 1]),
        (b"FR C 6", [110, 10, 0, 0, 6]),
        (b"OPN DB 255", [111, 5, 0, 0, 255]),
        (b"OPN DI 1", [112, 6, 0, 0, 1]),
        (b"CALL FC 255", [114, 16, 0, 0, 255]),
        (b"CALL FB 0, DB 255", [115, 17, 0, 255, 0]),
        (b"CALL SFC 43", [116, 18, 0, 0, 43]),
        (b"CALL SFC 46", [117, 18, 0, 0, 46]),
        (b"UC FC 1", [118, 16, 0, 0, 1]),
        (b"UC FB 2", [119, 17, 0, 0, 2]),
        (b"CC FC 3", [120, 16, 0, 0, 3]),
        (b"CC FB 4", [121, 17, 0, 0, 4]),
        (b"NOP 0", [125, 11, 0, 0, 0]),
        (b"NOP 1", [126, 11, 0, 0, 1]),
        (b"BLD 255", [127, 11, 0, 0, 255]),
    ];
    assert_rows(&rt, rt.alloc(), &rows)
}

/// The kind and the line of a fault.
fn fault_of(alloc: Global, text: &[u8]) -> Result<(u32, u32), Fail> {
    let shown = fields(alloc, CodeKind::Fc, text)?;
    match shown.as_slice() {
        [1000, kind, line] => Ok((*kind, *line)),
        _ => Err(Fail::from("no fault")),
    }
}

/// Each body has this fault.
fn assert_faults(rt: &impl Abort, alloc: Global, rows: &[(&[u8], (u32, u32))]) -> Result<(), Fail> {
    for row in rows {
        let (text, want) = *row;
        assert_eq!(rt; fault_of(alloc, text)?, want);
    }
    Ok(())
}

#[test]
fn bits_at_fault(rt: HostRuntime) -> Result<(), Fail> {
    let rows: [(&[u8], (u32, u32)); 21] = [
        (b"A IB 0; END_FUNCTION", (11, 1)),
        (b"A I\n64.0; END_FUNCTION", (11, 1)),
        (b"A I 0.8; END_FUNCTION", (11, 1)),
        (b"A\nIB\n0; END_FUNCTION", (11, 2)),
        (b"A;", (11, 1)),
        (b"A\n;", (11, 2)),
        (b"A\nO I 0.0;", (11, 2)),
        (b"A", (13, 1)),
        (b"A\n\n", (13, 2)),
        (b"A I 0.0\nA I 0.1;", (13, 1)),
        (b"A I\n0.0", (13, 2)),
        (b"A I 0\n.\n", (13, 2)),
        (b"A I 0", (13, 1)),
        (b"= T 1; END_FUNCTION", (11, 1)),
        (b"= BR; END_FUNCTION", (11, 1)),
        (b"S T 1; END_FUNCTION", (11, 1)),
        (b"R OV; END_FUNCTION", (11, 1)),
        (b"FP T 1; END_FUNCTION", (11, 1)),
        (b"A STW; END_FUNCTION", (11, 1)),
        (b"A TRUE; END_FUNCTION", (11, 1)),
        (b"A 5; END_FUNCTION", (11, 1)),
    ];
    assert_faults(&rt, rt.alloc(), &rows)
}

#[test]
fn data_bits_and_status_at_fault(rt: HostRuntime) -> Result<(), Fail> {
    let rows: [(&[u8], (u32, u32)); 15] = [
        (b"A DIX 65536.0; END_FUNCTION", (11, 1)),
        (b"A DB0.DBX 0.0; END_FUNCTION", (11, 1)),
        (b"A\nDB256\n.DBX 0.0; END_FUNCTION", (11, 2)),
        (b"A DB1.\nDBW 0; END_FUNCTION", (11, 2)),
        (b"A DB1\nDBX 0.0; END_FUNCTION", (11, 2)),
        (b"A DB1_0.DBX 0.0; END_FUNCTION", (11, 1)),
        (b"A DB1.\nDB 0; END_FUNCTION", (11, 2)),
        (b"A DB1.\n5 0; END_FUNCTION", (11, 2)),
        (b"A T 256; END_FUNCTION", (11, 1)),
        (b"A C 256; END_FUNCTION", (11, 1)),
        (b"A ==\n1; END_FUNCTION", (11, 2)),
        (b"L ==0; END_FUNCTION", (11, 1)),
        (b"A \"x\"; END_FUNCTION", (21, 1)),
        (b"A P#M0.0; END_FUNCTION", (21, 1)),
        (b"A I\n\"x\"; END_FUNCTION", (21, 2)),
    ];
    assert_faults(&rt, rt.alloc(), &rows)
}

#[test]
fn values_at_fault(rt: HostRuntime) -> Result<(), Fail> {
    let rows: [(&[u8], (u32, u32)); 22] = [
        (b"L IB 64; END_FUNCTION", (11, 1)),
        (b"L IW 63; END_FUNCTION", (11, 1)),
        (b"L QD 61; END_FUNCTION", (11, 1)),
        (b"L MB 1024; END_FUNCTION", (11, 1)),
        (b"L MW 1023; END_FUNCTION", (11, 1)),
        (b"L MD 1021; END_FUNCTION", (11, 1)),
        (b"L DBB 65536; END_FUNCTION", (11, 1)),
        (b"L DBW 65535; END_FUNCTION", (11, 1)),
        (b"L DBD 65533; END_FUNCTION", (11, 1)),
        (b"L DIW 65535; END_FUNCTION", (11, 1)),
        (b"L DB1.DBB 65536; END_FUNCTION", (11, 1)),
        (b"L PIB 1024; END_FUNCTION", (11, 1)),
        (b"L PIW 1023; END_FUNCTION", (11, 1)),
        (b"L PQB 0; END_FUNCTION", (11, 1)),
        (b"T PIB 0; END_FUNCTION", (11, 1)),
        (b"T PQD 1021; END_FUNCTION", (11, 1)),
        (b"T 5; END_FUNCTION", (11, 1)),
        (b"T T 5; END_FUNCTION", (11, 1)),
        (b"T DBLG; END_FUNCTION", (11, 1)),
        (b"L LB 0; END_FUNCTION", (11, 1)),
        (b"A L 0.0; END_FUNCTION", (11, 1)),
        (b"L I 0.0; END_FUNCTION", (11, 1)),
    ];
    assert_faults(&rt, rt.alloc(), &rows)
}

#[test]
fn constants_at_fault(rt: HostRuntime) -> Result<(), Fail> {
    let rows: [(&[u8], (u32, u32)); 22] = [
        (b"L 32768; END_FUNCTION", (11, 1)),
        (b"L -\n32769; END_FUNCTION", (11, 1)),
        (b"L 4_294_967_295; END_FUNCTION", (11, 1)),
        (b"L TRUE; END_FUNCTION", (11, 1)),
        (b"L +\n; END_FUNCTION", (11, 2)),
        (b"A +\n; END_FUNCTION", (11, 1)),
        (b"L P#1; END_FUNCTION", (21, 1)),
        (b"LC 5; END_FUNCTION", (11, 1)),
        (b"LC MW 0; END_FUNCTION", (11, 1)),
        (b"INC 256; END_FUNCTION", (11, 1)),
        (b"INC +1; END_FUNCTION", (11, 1)),
        (b"INC B#16#1; END_FUNCTION", (11, 1)),
        (b"DEC; END_FUNCTION", (11, 1)),
        (b"+ W#16#1; END_FUNCTION", (11, 1)),
        (b"+ 32768; END_FUNCTION", (11, 1)),
        (b"AW 5; END_FUNCTION", (11, 1)),
        (b"AW B#16#1; END_FUNCTION", (11, 1)),
        (b"AW DW#16#1; END_FUNCTION", (11, 1)),
        (b"AD W#16#1; END_FUNCTION", (11, 1)),
        (b"SSI 16; END_FUNCTION", (11, 1)),
        (b"SLD 33; END_FUNCTION", (11, 1)),
        (b"RLD W#16#1; END_FUNCTION", (11, 1)),
    ];
    assert_faults(&rt, rt.alloc(), &rows)
}

#[test]
fn jumps_timers_and_data_blocks_at_fault(rt: HostRuntime) -> Result<(), Fail> {
    let rows: [(&[u8], (u32, u32)); 13] = [
        (b"JU; END_FUNCTION", (11, 1)),
        (b"JU LABEL1; END_FUNCTION", (11, 1)),
        (b"JU 5; END_FUNCTION", (11, 1)),
        (b"JU #x; END_FUNCTION", (11, 1)),
        (b"SP T 256; END_FUNCTION", (11, 1)),
        (b"SP C 1; END_FUNCTION", (11, 1)),
        (b"CU T 1; END_FUNCTION", (11, 1)),
        (b"CD C 256; END_FUNCTION", (11, 1)),
        (b"FR M 0.0; END_FUNCTION", (11, 1)),
        (b"OPN DB 0; END_FUNCTION", (11, 1)),
        (b"OPN DB 256; END_FUNCTION", (11, 1)),
        (b"OPN DI 256; END_FUNCTION", (11, 1)),
        (b"OPN DB1; END_FUNCTION", (11, 1)),
    ];
    assert_faults(&rt, rt.alloc(), &rows)
}

#[test]
fn calls_at_fault(rt: HostRuntime) -> Result<(), Fail> {
    let rows: [(&[u8], (u32, u32)); 21] = [
        (b"CALL FC 256; END_FUNCTION", (11, 1)),
        (b"CALL FB 1\n; END_FUNCTION", (11, 2)),
        (b"CALL FB 1, DB 0; END_FUNCTION", (11, 1)),
        (b"CALL\nFB 1, DB\n256; END_FUNCTION", (11, 2)),
        (b"CALL FB 256, DB 1; END_FUNCTION", (11, 1)),
        (b"CALL FB 1, DI 1; END_FUNCTION", (11, 1)),
        (b"CALL SFC 44; END_FUNCTION", (21, 1)),
        (b"CALL\nSFB\n1; END_FUNCTION", (21, 2)),
        (b"CALL\nSFC\n;", (11, 3)),
        (b"CALL DB 1; END_FUNCTION", (11, 1)),
        (b"UC SFC 43; END_FUNCTION", (11, 1)),
        (b"UC SFC 1; END_FUNCTION", (21, 1)),
        (b"CC SFB 1; END_FUNCTION", (21, 1)),
        (b"A SFB 1; END_FUNCTION", (11, 1)),
        (b"A SFC 43; END_FUNCTION", (11, 1)),
        (b"UC FB 1, DB 1; END_FUNCTION", (13, 1)),
        (b"UC FB 256; END_FUNCTION", (11, 1)),
        (b"CC DB 1; END_FUNCTION", (11, 1)),
        (b"NOP 2; END_FUNCTION", (11, 1)),
        (b"NOP; END_FUNCTION", (11, 1)),
        (b"BLD 256; END_FUNCTION", (11, 1)),
    ];
    assert_faults(&rt, rt.alloc(), &rows)
}

#[test]
fn operands_left_out(rt: HostRuntime) -> Result<(), Fail> {
    let rows: [(&[u8], (u32, u32)); 28] = [
        (b"M001: END_FUNCTION_BLOCK", (9, 1)),
        (b"END_ORGANIZATION_BLOCK", (9, 1)),
        (b"CALL FC 1\n();", (21, 2)),
        (b"CALL\n(", (21, 2)),
        (b"CALL FC\n(", (21, 2)),
        (b"CALL FB 1, DB 1\n(", (21, 2)),
        (b"CALL SFC 43 (", (21, 1)),
        (b"UC FC 1\n(", (13, 1)),
        (b"UC FC\n(", (11, 2)),
        (b"\"x\" := 5;", (9, 1)),
        (b"P#M0.0;", (9, 1)),
        (b"O 5; END_FUNCTION", (11, 1)),
        (b"O\nL 5; END_FUNCTION", (13, 1)),
        (b"O\nL 0.0; END_FUNCTION", (11, 2)),
        (b"O\nT QB 0;", (13, 1)),
        (b"O\nC;", (13, 1)),
        (b"O\nDB 5; END_FUNCTION", (11, 2)),
        (b"O\n\"x\";", (21, 2)),
        (b"O\n#x;", (12, 2)),
        (b"O\n>5;", (13, 1)),
        (b"AW\n+I;", (13, 1)),
        (b"AW\n+5;", (11, 2)),
        (b"SLW\nNOP 0;", (13, 1)),
        (b"SLW\nSTW;", (11, 2)),
        (b"NOT\n5;", (13, 1)),
        (b"JU\n#x;", (11, 2)),
        (b"AW\n#x;", (11, 2)),
        (b"A\n#x;", (12, 2)),
    ];
    assert_faults(&rt, rt.alloc(), &rows)
}

#[test]
fn real_constants_and_indirect_operands(rt: HostRuntime) -> Result<(), Fail> {
    let rows: [(&[u8], (u32, u32)); 17] = [
        (b"L 1.5; END_FUNCTION", (10, 1)),
        (b"L\n-1.5; END_FUNCTION", (10, 2)),
        (b"L 1E5; END_FUNCTION", (10, 1)),
        (b"L\n+\n1.5E3;", (10, 2)),
        (b"A 1.5; END_FUNCTION", (10, 1)),
        (b"AW -1E5; END_FUNCTION", (10, 1)),
        (b"JU 1.5;", (10, 1)),
        (b"NOT\n1.5;", (13, 1)),
        (b"L 1.;", (13, 1)),
        (b"A 1.;", (11, 1)),
        (b"A I\n[MD 0];", (21, 2)),
        (b"L T\n[MW 0];", (21, 2)),
        (b"OPN DB\n[MW 0];", (21, 2)),
        (b"CALL FB 1, DB\n[MW 0];", (21, 2)),
        (b"A DB1.DBX\n[MD 0];", (21, 2)),
        (b"A I 0.0\n[MD 0];", (13, 1)),
        (b"A IB\n[", (11, 1)),
    ];
    assert_faults(&rt, rt.alloc(), &rows)
}

#[test]
fn statements_at_fault(rt: HostRuntime) -> Result<(), Fail> {
    let rows: [(&[u8], (u32, u32)); 25] = [
        (b"LAR1;", (21, 1)),
        (b"+AR1;", (21, 1)),
        (b"TAR2 MD 0;", (21, 1)),
        (b"L LAR1;", (11, 1)),
        (b"VAR\nEND_VAR", (9, 1)),
        (b"A I 0.0;\n", (13, 1)),
        (b"\n\nM001:", (13, 3)),
        (b"", (13, 1)),
        (b"L 5 // a comment\n\n", (13, 1)),
        (b"LABEL: NOP 0;", (9, 1)),
        (b"LEAVE\n: NOP 0;", (13, 1)),
        (b"M001:\nM002: NOP 0;", (9, 2)),
        (b"M001:\nA: NOP 0;", (9, 2)),
        (b"A\n(;", (11, 2)),
        (b"+\nI;", (11, 2)),
        (b"FOO;", (9, 1)),
        (b";;FOO", (9, 1)),
        (b"{x}", (9, 1)),
        (b"5;", (9, 1)),
        (b"+R;", (10, 1)),
        (b"==R;", (10, 1)),
        (b"RND+;", (10, 1)),
        (b"RND\n+;", (10, 1)),
        (b"TRUNC;", (10, 1)),
        (b"sqrt;", (10, 1)),
    ];
    assert_faults(&rt, rt.alloc(), &rows)
}

/// An organisation block has 20 bytes of local data in any case, and each kind of block its own end word.
#[test]
fn kinds_of_blocks(rt: HostRuntime) -> Result<(), Fail> {
    let rows: [(&[u8], CodeKind, &[u32]); 6] = [
        (
            b"L LB 19; END_ORGANIZATION_BLOCK",
            CodeKind::Ob,
            &[27, 4, 8, 0, 19],
        ),
        (
            b"A L 19.7; END_ORGANIZATION_BLOCK",
            CodeKind::Ob,
            &[0, 4, 7, 0, 19],
        ),
        (
            b"L LW 19; END_ORGANIZATION_BLOCK",
            CodeKind::Ob,
            &[1000, 11, 1],
        ),
        (b"BEU; END_FUNCTION_BLOCK", CodeKind::Fb, &[124, 0, 0, 0, 0]),
        (b"END_FUNCTION", CodeKind::Fb, &[1000, 9, 1]),
        (b"end_function", CodeKind::Fc, &[]),
    ];
    for (text, kind, want) in rows {
        assert_eq!(rt; fields(rt.alloc(), kind, text)?.as_slice(), want);
    }
    Ok(())
}

/// A body behind the first word of a text, the token behind it, and how many tokens there are.
fn body_of(alloc: Global) -> Result<(Body, u32, usize), Fail> {
    let text =
        b"BEGIN NETWORK\nTITLE = one\nm001: JU end;\n M002:; NOP\n0; JL M001; network\nEND: END_FUNCTION FUNCTION";
    let Ok(found) = tokens(alloc, text) else {
        return Err(Fail::from("no tokens"));
    };
    let count = found.as_slice().len();
    if count == 0 {
        return Err(Fail::from("no token"));
    }
    let temps = Layout::new(alloc);
    let Ok((read, behind)) = body(alloc, text, &found, 1, CodeKind::Fc, &temps) else {
        return Err(Fail::from("a fault"));
    };
    Ok((read, behind, count))
}

fn assert_lines(rt: &impl Abort, read: &Body) {
    let want = [(84, 3, 7), (125, 4, 9), (85, 5, 4)];
    assert_eq!(rt; read.statements().len(), 3);
    for (line, want) in read.statements().iter().zip(want) {
        assert_eq!(rt; (line.statement.op, line.line, line.column), want);
    }
}

fn label(name: [u8; 4], statement: u32, line: u32, column: u32) -> Label {
    Label {
        name,
        statement,
        line,
        column,
    }
}

fn jump(statement: u32, name: [u8; 4]) -> Jump {
    Jump { statement, name }
}

fn assert_labels_and_jumps(rt: &impl Abort, read: &Body) {
    let labels = [
        label(*b"M001", 0, 3, 1),
        label(*b"M002", 1, 4, 2),
        label(*b"END\0", 3, 6, 1),
    ];
    assert_eq!(rt; read.labels(), labels.as_slice());
    let jumps = [jump(0, *b"END\0"), jump(2, *b"M001")];
    assert_eq!(rt; read.jumps(), jumps.as_slice());
}

/// Labels, jumps, lines and columns, headings, and the token behind the end word.
#[test]
fn lists(rt: HostRuntime) -> Result<(), Fail> {
    let (read, behind, count) = body_of(rt.alloc())?;
    assert_eq!(rt; behind as usize + 1, count);
    assert_lines(&rt, &read);
    assert_labels_and_jumps(&rt, &read);
    Ok(())
}

/// BOOLs at 0.0 and 0.1, a BYTE at 1, an INT at 2, arrays at 4 and 12, a DINT at 14, 8 bytes at 18, a CHAR at 26:
/// 28 bytes.
#[test]
fn named_locals(rt: HostRuntime) -> Result<(), Fail> {
    let names =
        b"VAR_TEMP a: BOOL; b: BOOL; c: BYTE; d: INT; e: ARRAY[-1..2] OF INT; f: ARRAY[0..9] OF BOOL; \
        g: DINT; h: DATE_AND_TIME; i: CHAR; END_VAR BEGIN ";
    let rows: [(&[u8], &[u32]); 33] = [
        (b"A #a; END_FUNCTION", &[0, 4, 0, 0, 0]),
        (b"= #B; END_FUNCTION", &[14, 4, 1, 0, 0]),
        (b"L #c; END_FUNCTION", &[27, 4, 8, 0, 1]),
        (b"T #d; END_FUNCTION", &[28, 4, 9, 0, 2]),
        (b"L #e[-1]; END_FUNCTION", &[27, 4, 9, 0, 4]),
        (b"L #e [ 0 ]; END_FUNCTION", &[27, 4, 9, 0, 6]),
        (b"T #e[+2]; END_FUNCTION", &[28, 4, 9, 0, 10]),
        (b"A #f[3]; END_FUNCTION", &[0, 4, 3, 0, 12]),
        (b"FP #f[9]; END_FUNCTION", &[21, 4, 1, 0, 13]),
        (b"L #g; END_FUNCTION", &[27, 4, 10, 0, 14]),
        (b"L #I; END_FUNCTION", &[27, 4, 8, 0, 26]),
        (b"L LB 27; END_FUNCTION", &[27, 4, 8, 0, 27]),
        (b"A L 27.7; END_FUNCTION", &[0, 4, 7, 0, 27]),
        (b"L\n#e; END_FUNCTION", &[1000, 11, 2]),
        (b"L\n#e[\n3]; END_FUNCTION", &[1000, 11, 3]),
        (b"L #e[\n-\n2]; END_FUNCTION", &[1000, 11, 2]),
        (b"L #e[32768]; END_FUNCTION", &[1000, 11, 1]),
        (b"L\n#d[\n0]; END_FUNCTION", &[1000, 11, 3]),
        (b"A\n#c; END_FUNCTION", &[1000, 11, 2]),
        (b"A\n#e[\n9]; END_FUNCTION", &[1000, 11, 2]),
        (b"L #a; END_FUNCTION", &[1000, 11, 1]),
        (b"L #h; END_FUNCTION", &[1000, 11, 1]),
        (b"L\n#k[; END_FUNCTION", &[1000, 12, 2]),
        (b"A\n#k; END_FUNCTION", &[1000, 12, 2]),
        (b"JU #a; END_FUNCTION", &[1000, 11, 1]),
        (b"AW\n#k; END_FUNCTION", &[1000, 11, 2]),
        (b"L LB 28; END_FUNCTION", &[1000, 11, 1]),
        (b"L LW 27; END_FUNCTION", &[1000, 11, 1]),
        (b"L #e[1\n,2]; END_FUNCTION", &[1000, 11, 2]),
        (b"L #e[1\n.5]; END_FUNCTION", &[1000, 11, 2]),
        (b"L #e[\n; END_FUNCTION", &[1000, 11, 2]),
        (b"L #e[1\n", &[1000, 13, 1]),
        (b"L #e[1]\nNOP 0; END_FUNCTION", &[1000, 13, 1]),
    ];
    for (text, want) in rows {
        assert_eq!(rt; behind_names(rt.alloc(), names, text)?.as_slice(), want);
    }
    Ok(())
}

#[test]
fn errors_tell_line_and_kind(rt: HostRuntime) -> Result<(), Fail> {
    let fault = ReadError::Fault(stl_lex::LoadFault { kind: 7, line: 12 });
    let text = format!(in rt.alloc(); "{fault}, {}", ReadError::NoMemory)?;
    assert_eq!(rt; text.as_str(), "line 12: fault 7, out of memory");
    Ok(())
}
