use std::alloc::Global;
use std::process::Abort;
use std::test::Fail;
use stl_lex::{LexError, LoadFault, Token, TokenKind, tokens};

fn letter(kind: TokenKind) -> u8 {
    match kind {
        TokenKind::Title => b'T',
        TokenKind::Attribute => b'A',
        TokenKind::Word => b'W',
        TokenKind::Local => b'L',
        TokenKind::Number => b'N',
        TokenKind::Literal => b'V',
        TokenKind::RealPart => b'R',
        TokenKind::Characters => b'C',
        TokenKind::Sign => b'S',
    }
}

/// Each token as its kind's letter, its text and a bar; or a fault as `!`, its kind and its line.
fn shown(alloc: Global, text: &[u8]) -> Result<Vec<u8>, Fail> {
    if text.len() > 1_048_576 {
        return Err(Fail::from("too long"));
    }
    let mut all = Vec::new(alloc);
    match tokens(alloc, text) {
        Ok(found) => {
            for token in found.as_slice() {
                all.push(letter(token.kind))?;
                let spelled = text.get(token.from as usize..token.to as usize);
                all.extend_from_slice(spelled.unwrap_or(b"?"))?;
                all.push(b'|')?;
            }
        }
        Err(LexError::Fault(fault)) => {
            all.push(b'!')?;
            all.push(b'0'.wrapping_add(fault.kind))?;
            all.push(b' ')?;
            all.push(b'0'.wrapping_add(fault.line.min(9) as u8))?;
        }
        Err(LexError::NoMemory) => return Err(Fail::from("no memory")),
    }
    Ok(all)
}

/// Each text has these tokens, or this fault.
fn assert_shown(rt: &impl Abort, alloc: Global, rows: &[(&[u8], &[u8])]) -> Result<(), Fail> {
    for row in rows {
        let (text, want) = *row;
        assert_eq!(rt; shown(alloc, text)?.as_slice(), want);
    }
    Ok(())
}

#[test]
fn words_numbers_and_literals(rt: HostRuntime) -> Result<(), Fail> {
    let rows: [(&[u8], &[u8]); 25] = [
        (b"", b""),
        (b"Ab_1 \t_001:\r\n", b"WAb_1|W_001|S:|"),
        (b"TITLE =x /y\nTITLE=x", b"TTITLE =x /y|WTITLE|S=|Wx|"),
        (
            b"title \t=\x80\r\nTITLES =",
            b"Ttitle \t=\x80\r|WTITLES|S=|",
        ),
        (
            b"A TITLE =x\n//y\n(*z*)TITLE =",
            b"WA|WTITLE|S=|Wx|TTITLE =|",
        ),
        (b"A (*\n*) TITLE = (*", b"WA|TTITLE = (*|"),
        (b"{ S7 := 'a'\x80\r}b}", b"!1 1"),
        (b"{ S7 := 'a'\x80\r}b{}", b"A{ S7 := 'a'\x80\r}|Wb|A{}|"),
        (b"# #5 #a#b #_", b"L#|L#5|L#a#b|L#_|"),
        (b"0 00 1_0 4_294_967_295", b"N0|N00|N1_0|N4_294_967_295|"),
        (b"L#5 L#-2147483648", b"VL#5|VL#-2147483648|"),
        (b"l#+2_147_483_647-1", b"Vl#+2_147_483_647|S-|N1|"),
        (b"B#16#fF BYTE#16#00F_F", b"VB#16#fF|VBYTE#16#00F_F|"),
        (b"W#16#FFFF word#16#0", b"VW#16#FFFF|Vword#16#0|"),
        (b"DW#16#FFFF_FFFF", b"VDW#16#FFFF_FFFF|"),
        (b"DWORD#16#0FFFFFFFF", b"VDWORD#16#0FFFFFFFF|"),
        (b"2#0 2#1_0", b"V2#0|V2#1_0|"),
        (
            b"2#11111111_11111111_11111111_11111111",
            b"V2#11111111_11111111_11111111_11111111|",
        ),
        (b"C#0 C#999 c#00_999", b"VC#0|VC#999|Vc#00_999|"),
        (b"S5T#2H46M30S", b"VS5T#2H46M30S|"),
        (b"S5TIME#9_990_000ms", b"VS5TIME#9_990_000ms|"),
        (b"S5T#0MS s5t#1m1ms", b"VS5T#0MS|Vs5t#1m1ms|"),
        (b"T#24D20H31M23S647MS", b"VT#24D20H31M23S647MS|"),
        (b"T#-24D20H31M23S648MS", b"VT#-24D20H31M23S648MS|"),
        (b"t#+1d TIME#1H1M", b"Vt#+1d|VTIME#1H1M|"),
    ];
    assert_shown(&rt, rt.alloc(), &rows)
}

#[test]
fn reals_signs_and_comments(rt: HostRuntime) -> Result<(), Fail> {
    let rows: [(&[u8], &[u8]); 22] = [
        (b"P#M0.0 p#", b"VP#M0|S.|N0|Vp#|"),
        (b"1E 1E5 1e-5 1_0E+1_0", b"R1E|R1E5|R1e-5|R1_0E+1_0|"),
        (b"1E+ 1E-x 99999999999E", b"R1E|S+|R1E|S-|Wx|R99999999999E|"),
        (b"1.5E2 -5", b"N1|S.|R5E2|S-|N5|"),
        (b"'a' 'abcd' ' ~\"'", b"C'a'|C'abcd'|C' ~\"'|"),
        (b"'{}' '(*'''a'", b"!1 1"),
        (b":= .. == <> <= >=", b"S:=|S..|S==|S<>|S<=|S>=|"),
        (
            b"= < > + - * / ( ) ; : , . [ ] \"",
            b"S=|S<|S>|S+|S-|S*|S/|S(|S)|S;|S:|S,|S.|S[|S]|S\"|",
        ),
        (b"=== ... <>= ><", b"S==|S=|S..|S.|S<>|S=|S>|S<|"),
        (b"A//b (*\nC", b"WA|WC|"),
        (b"A(*)*)B(***)C(**)D", b"WA|WB|WC|WD|"),
        (b"A(*\r\x80*\n*)B", b"WA|WB|"),
        (b"A( / *)", b"WA|S(|S/|S*|S)|"),
        (b"+I; ==D;", b"S+|WI|S;|S==|WD|S;|"),
        (b"DB1.DBW 0", b"WDB1|S.|WDBW|N0|"),
        (b"ARRAY[1..5]", b"WARRAY|S[|N1|S..|N5|S]|"),
        (b"x(:=)", b"Wx|S(|S:=|S)|"),
        (b"L+5", b"WL|S+|N5|"),
        (b"T-5", b"WT|S-|N5|"),
        (b"1E1+5", b"R1E1|S+|N5|"),
        (b"//", b""),
        (b"\n\t \r\n", b""),
    ];
    assert_shown(&rt, rt.alloc(), &rows)
}

#[test]
fn bytes_at_fault(rt: HostRuntime) -> Result<(), Fail> {
    let rows: [(&[u8], &[u8]); 18] = [
        (b"\n (* x", b"!4 2"),
        (b"(* x", b"!4 1"),
        (b"(*)", b"!4 1"),
        (b"A\n(* *\n )", b"!4 2"),
        (b"{ a\n}", b"!1 1"),
        (b"{", b"!1 1"),
        (b"\n}", b"!1 2"),
        (b"'a", b"!1 1"),
        (b"''", b"!1 1"),
        (b"'abcde'", b"!1 1"),
        (b"'a\t'", b"!1 1"),
        (b"'a\n'", b"!1 1"),
        (b"A\rB", b"!1 1"),
        (b"A\n\r", b"!1 2"),
        (b"\n\r\r\n", b"!1 2"),
        (b"A\n\x80", b"!1 2"),
        (b"!", b"!1 1"),
        (b"&", b"!1 1"),
    ];
    assert_shown(&rt, rt.alloc(), &rows)
}

#[test]
fn numbers_at_fault(rt: HostRuntime) -> Result<(), Fail> {
    let rows: [(&[u8], &[u8]); 26] = [
        (b"1x", b"!2 1"),
        (b"5_", b"!2 1"),
        (b"5__0", b"!2 1"),
        (b"1_E5", b"!2 1"),
        (b"1E5x", b"!2 1"),
        (b"1E+5x", b"!2 1"),
        (b"1E+5_", b"!2 1"),
        (b"16#F", b"!2 1"),
        (b"L#x", b"!2 1"),
        (b"L#", b"!2 1"),
        (b"L#+", b"!2 1"),
        (b"L#--5", b"!2 1"),
        (b"L#_5", b"!2 1"),
        (b"L#5_", b"!2 1"),
        (b"\nL#5__5", b"!2 2"),
        (b"B#16#", b"!2 1"),
        (b"B#16#G", b"!2 1"),
        (b"B#16#F_", b"!2 1"),
        (b"B#16#_F", b"!2 1"),
        (b"B#1_6#F", b"!2 1"),
        (b"B#5", b"!2 1"),
        (b"2#", b"!2 1"),
        (b"2#2", b"!2 1"),
        (b"2#0_11111111_11111111_11111111_11111111", b"!2 1"),
        (b"C#-1", b"!2 1"),
        (b"C#A", b"!2 1"),
    ];
    assert_shown(&rt, rt.alloc(), &rows)
}

#[test]
fn durations_at_fault(rt: HostRuntime) -> Result<(), Fail> {
    let rows: [(&[u8], &[u8]); 12] = [
        (b"S5T#1D", b"!2 1"),
        (b"S5T#-1S", b"!2 1"),
        (b"S5T#1_S", b"!2 1"),
        (b"T#", b"!2 1"),
        (b"T#5", b"!2 1"),
        (b"T#S", b"!2 1"),
        (b"T#1M1H", b"!2 1"),
        (b"T#1H1H", b"!2 1"),
        (b"T#1H_1M", b"!2 1"),
        (b"T#1S1", b"!2 1"),
        (b"TIME#-1S", b"!2 1"),
        (b"DATE#1", b"!2 1"),
    ];
    assert_shown(&rt, rt.alloc(), &rows)
}

#[test]
fn ranges_at_fault(rt: HostRuntime) -> Result<(), Fail> {
    let rows: [(&[u8], &[u8]); 12] = [
        (b"4294967296", b"!3 1"),
        (b"L#2147483648", b"!3 1"),
        (b"L#-2147483649", b"!3 1"),
        (b"BYTE#16#100", b"!3 1"),
        (b"W#16#1_0000 1x", b"!3 1"),
        (b"A DW#16#100000000\n1x", b"!3 1"),
        (b"C#1000", b"!3 1"),
        (b"S5T#2H46M30S1MS", b"!3 1"),
        (b"T#24D20H31M23S648MS", b"!3 1"),
        (b"T#-24D20H31M23S649MS", b"!3 1"),
        (b"T#9999999999999999999999D", b"!3 1"),
        (b"5x (*", b"!2 1"),
    ];
    assert_shown(&rt, rt.alloc(), &rows)
}

/// A data block and an organisation block as an editor writes them.
const SOURCE: &[u8] = b"\
DATA_BLOCK DB 1
TITLE =Recipe
VERSION : 0.1

  STRUCT
   Count : INT  := 0;\t//parts
   Limit : INT  := 5;
  END_STRUCT ;
BEGIN
   Count := 0;
   Limit := 5;
END_DATA_BLOCK

ORGANIZATION_BLOCK OB 1
TITLE =Main program
VERSION : 0.1

VAR_TEMP
  OB1_EV_CLASS : BYTE ;
  OB1_SCAN_1 : BYTE ;
  OB1_PRIORITY : BYTE ;
  OB1_OB_NUMBR : BYTE ;
  OB1_RESERVED_1 : BYTE ;
  OB1_RESERVED_2 : BYTE ;
  OB1_PREV_CYCLE : INT ;
  OB1_MIN_CYCLE : INT ;
  OB1_MAX_CYCLE : INT ;
  OB1_DATE_TIME : DATE_AND_TIME ;
END_VAR
BEGIN
NETWORK
TITLE =Start and stop
      A(    ;
      O     I      0.0;
      O     Q      0.0;
      )     ;
      AN    I      0.1;
      =     Q      0.0;
NETWORK
TITLE =Count parts
      A     I      0.2;
      FP    M     10.0;
      JNB   _001;
      L     DB1.DBW    0;
      L     1;
      +I    ;
      T     DB1.DBW    0;
_001: NOP   0;
      L     #OB1_PREV_CYCLE;
      T     MW    20;
END_ORGANIZATION_BLOCK
";

/// Its tokens.
const SOURCE_TOKENS: &[u8] = b"\
WDATA_BLOCK|WDB|N1|\
TTITLE =Recipe|\
WVERSION|S:|N0|S.|N1|\
WSTRUCT|\
WCount|S:|WINT|S:=|N0|S;|\
WLimit|S:|WINT|S:=|N5|S;|\
WEND_STRUCT|S;|\
WBEGIN|\
WCount|S:=|N0|S;|\
WLimit|S:=|N5|S;|\
WEND_DATA_BLOCK|\
WORGANIZATION_BLOCK|WOB|N1|\
TTITLE =Main program|\
WVERSION|S:|N0|S.|N1|\
WVAR_TEMP|\
WOB1_EV_CLASS|S:|WBYTE|S;|\
WOB1_SCAN_1|S:|WBYTE|S;|\
WOB1_PRIORITY|S:|WBYTE|S;|\
WOB1_OB_NUMBR|S:|WBYTE|S;|\
WOB1_RESERVED_1|S:|WBYTE|S;|\
WOB1_RESERVED_2|S:|WBYTE|S;|\
WOB1_PREV_CYCLE|S:|WINT|S;|\
WOB1_MIN_CYCLE|S:|WINT|S;|\
WOB1_MAX_CYCLE|S:|WINT|S;|\
WOB1_DATE_TIME|S:|WDATE_AND_TIME|S;|\
WEND_VAR|\
WBEGIN|\
WNETWORK|\
TTITLE =Start and stop|\
WA|S(|S;|\
WO|WI|N0|S.|N0|S;|\
WO|WQ|N0|S.|N0|S;|\
S)|S;|\
WAN|WI|N0|S.|N1|S;|\
S=|WQ|N0|S.|N0|S;|\
WNETWORK|\
TTITLE =Count parts|\
WA|WI|N0|S.|N2|S;|\
WFP|WM|N10|S.|N0|S;|\
WJNB|W_001|S;|\
WL|WDB1|S.|WDBW|N0|S;|\
WL|N1|S;|\
S+|WI|S;|\
WT|WDB1|S.|WDBW|N0|S;|\
W_001|S:|WNOP|N0|S;|\
WL|L#OB1_PREV_CYCLE|S;|\
WT|WMW|N20|S;|\
WEND_ORGANIZATION_BLOCK|";

#[test]
fn a_source(rt: HostRuntime) -> Result<(), Fail> {
    assert_eq!(rt; shown(rt.alloc(), SOURCE)?.as_slice(), SOURCE_TOKENS);
    Ok(())
}

fn word(from: u32, to: u32, line: u32, column: u32) -> Token {
    Token {
        kind: TokenKind::Word,
        from,
        to,
        line,
        column,
    }
}

#[test]
fn places(rt: HostRuntime) -> Result<(), Fail> {
    let text = b"A\r\n (*\n *) B\tC";
    let Ok(found) = tokens(rt.alloc(), text) else {
        return Err(Fail::from("no tokens"));
    };
    let want = [word(0, 1, 1, 1), word(11, 12, 3, 5), word(13, 14, 3, 7)];
    assert_eq!(rt; found.as_slice(), want.as_slice());
    Ok(())
}

#[test]
fn errors_tell_line_and_kind(rt: HostRuntime) -> Result<(), Fail> {
    let fault = LexError::Fault(LoadFault { kind: 7, line: 12 });
    let text = format!(in rt.alloc(); "{fault}, {}", LexError::NoMemory)?;
    assert_eq!(rt; text.as_str(), "line 12: fault 7, out of memory");
    Ok(())
}
