ghost use Rattle.std.specs.Prelude.{◌≤◌, length};

use std::alloc::Global;
use std::process::Abort;
use std::test::Fail;
use stl_decl::*;
use stl_lex::{LoadFault, Tokens, tokens};

fn tokens_of(alloc: Global, text: &[u8]) -> Result<Tokens, Fail> {
    if text.len() > 1_048_576 {
        return Err(Fail::from("too long"));
    }
    match tokens(alloc, text) {
        Ok(found) => Ok(found),
        Err(_) => Err(Fail::from("no tokens")),
    }
}

fn fault_text(alloc: Global, fault: LoadFault) -> Result<Vec<u8>, Fail> {
    let kind = fault.kind;
    let line = fault.line;
    Ok(format!(in alloc; "!{kind} {line}")?.into_bytes())
}

fn push_place(alloc: Global, all: &mut Vec<u8>, name: &[u8], bit: u64) -> Result<(), Fail> {
    let place = format!(in alloc; "@{bit} ")?;
    all.extend_from_slice(name)?;
    all.extend_from_slice(place.as_bytes())?;
    Ok(())
}

fn push_size(alloc: Global, all: &mut Vec<u8>, size: u32, behind: u32) -> Result<(), Fail> {
    let text = format!(in alloc; "={size} {behind}")?;
    all.extend_from_slice(text.as_bytes())?;
    Ok(())
}

fn places_of(alloc: Global, layout: &Layout, behind: u32) -> Result<Vec<u8>, Fail> {
    let mut all = Vec::new(alloc);
    for declared in layout.names() {
        let first_bit = declared.variable.first_bit;
        push_place(alloc, &mut all, declared.name.as_slice(), first_bit)?;
    }
    push_size(alloc, &mut all, layout.size(), behind)?;
    Ok(all)
}

/// The names with their first bits, and the size in bytes; or a fault as `!`, its kind and its line.
fn shown(alloc: Global, text: &[u8]) -> Result<Vec<u8>, Fail> {
    let found = tokens_of(alloc, text)?;
    if found.as_slice().len() > 1_048_576 || text.len() > 1_048_576 {
        return Err(Fail::from("too long"));
    }
    match declarations(alloc, text, &found, 0) {
        Ok((layout, behind)) => places_of(alloc, &layout, behind),
        Err(DeclError::Fault(fault)) => fault_text(alloc, fault),
        Err(DeclError::NoMemory) => Err(Fail::from("no memory")),
    }
}

fn push_byte(alloc: Global, all: &mut Vec<u8>, byte: u8) -> Result<(), Fail> {
    let text = format!(in alloc; "{byte:02X}")?;
    all.extend_from_slice(text.as_bytes())?;
    Ok(())
}

fn bytes_of(alloc: Global, layout: &Layout) -> Result<Vec<u8>, Fail> {
    if layout.size() > 65_536 {
        return Err(Fail::from("too large"));
    }
    let Ok(bytes) = first_bytes(alloc, layout) else {
        return Err(Fail::from("no memory"));
    };
    let mut all = Vec::new(alloc);
    for byte in bytes.as_slice() {
        push_byte(alloc, &mut all, *byte)?;
    }
    Ok(all)
}

/// The first bytes of a data block's STRUCT with its assignments, or a fault.
fn data(alloc: Global, text: &[u8]) -> Result<Vec<u8>, Fail> {
    let found = tokens_of(alloc, text)?;
    let list = found.as_slice();
    if list.len() > 1_048_576 || text.len() > 1_048_576 {
        return Err(Fail::from("too long"));
    }
    match assigned(alloc, text, list) {
        Ok(layout) => bytes_of(alloc, &layout),
        Err(StepError::Fault(fault)) => fault_text(alloc, fault.told()),
        Err(StepError::NoMemory) => Err(Fail::from("no memory")),
    }
}

fn assigned(alloc: Global, text: &[u8], list: &[stl_lex::Token]) -> Result<Layout, StepError>
    requires text { length text.now ≤ 1048576 }
    requires list { length list.now ≤ 1048576 }
{
    let (layout, rest) = structure_at(alloc, text, list.len() + 1, list)?;
    let (_, rest) = word_at(text, b"BEGIN", rest)?;
    let (layout, _) = assignments_at(alloc, text, list.len() + 1, layout, rest)?;
    Ok(layout)
}

/// What a text is read as.
#[derive(Clone, Copy)]
enum Part {
    Declarations,
    Data,
}

fn read_as(alloc: Global, part: Part, text: &[u8]) -> Result<Vec<u8>, Fail> {
    match part {
        Part::Declarations => shown(alloc, text),
        Part::Data => data(alloc, text),
    }
}

/// Each text is read as these places or bytes, or has this fault.
fn assert_read(
    rt: &impl Abort,
    alloc: Global,
    part: Part,
    rows: &[(&[u8], &[u8])],
) -> Result<(), Fail> {
    for row in rows {
        let (text, want) = *row;
        assert_eq!(rt; read_as(alloc, part, text)?.as_slice(), want);
    }
    Ok(())
}

#[test]
fn places(rt: HostRuntime) -> Result<(), Fail> {
    let rows: [(&[u8], &[u8]); 8] = [
        (
            b"VAR_TEMP a:BOOL;b:BYTE;c:CHAR;d:WORD;e:INT;f:S5TIME;g:DATE;h:DWORD;i:DINT;j:TIME;k:TIME_OF_DAY;l:DATE_AND_TIME;m:BOOL;END_VAR",
            b"A@0 B@8 C@16 D@32 E@48 F@64 G@80 H@96 I@128 J@160 K@192 L@224 M@288 =38 54",
        ),
        (
            b"VAR_TEMP a:BOOL;b:BOOL;c:BOOL;d:BOOL;e:BOOL;f:BOOL;g:BOOL;h:BOOL;i:BOOL;j:BYTE;k:BOOL;END_VAR",
            b"A@0 B@1 C@2 D@3 E@4 F@5 G@6 H@7 I@8 J@16 K@24 =4 46",
        ),
        (
            b"VAR_TEMP a:BOOL;b:ARRAY[0..8]OF BOOL;c:BOOL;d:ARRAY[-1..1]OF BYTE;e:BYTE;f:ARRAY[5..5]OF DATE_AND_TIME;END_VAR",
            b"A@0 B@16 C@32 D@48 E@80 F@96 =20 48",
        ),
        (
            b"VAR_TEMP a:BOOL;END_VAR var_temp b:bool;end_var BEGIN",
            b"A@0 B@1 =2 12",
        ),
        (b"BEGIN", b"=0 0"),
        (b"", b"=0 0"),
        (
            b"STRUCT Count {x} : INT; END_STRUCT ; BEGIN",
            b"COUNT@0 =2 8",
        ),
        (
            b"VAR_TEMP a:ARRAY[0..8191]OF INT;b:ARRAY[-32768..-32768]OF INT;END_VAR",
            b"A@0 B@131072 =16386 26",
        ),
    ];
    assert_read(&rt, rt.alloc(), Part::Declarations, &rows)
}

#[test]
fn faults(rt: HostRuntime) -> Result<(), Fail> {
    let rows: [(&[u8], &[u8]); 24] = [
        (b"VAR_TEMP a:FOO;", b"!5 1"),
        (b"VAR_TEMP a:\nREAL;", b"!6 2"),
        (b"VAR_TEMP a:STRING[4];", b"!21 1"),
        (b"VAR_TEMP a:STRUCT", b"!21 1"),
        (b"VAR_TEMP a:UDT 3;", b"!21 1"),
        (b"VAR_TEMP a:5;", b"!11 1"),
        (b"VAR_TEMP a:INT;\nA:INT;", b"!7 2"),
        (b"VAR_TEMP a:INT;END_VAR VAR_TEMP\na:INT;END_VAR", b"!7 2"),
        (b"VAR_TEMP a:ARRAY[1..\n0]OF INT;", b"!8 2"),
        (b"VAR_TEMP a:ARRAY[0..8192\n]OF INT;", b"!8 1"),
        (b"VAR_TEMP a:ARRAY[\n-32769\n..0]OF INT;", b"!8 2"),
        (b"VAR_TEMP a:ARRAY[0..1\n,0..1]OF INT;", b"!21 2"),
        (b"VAR_TEMP a:ARRAY[0..1]OF\nARRAY[0..1]OF INT;", b"!11 2"),
        (b"VAR_TEMP a:ARRAY[0..1]OF\nREAL;", b"!6 2"),
        (b"VAR_TEMP a:INT:=\n5;END_VAR", b"!11 2"),
        (b"VAR_TEMP a:INT;\n", b"!13 1"),
        (b"VAR_TEMP a:\nINT", b"!13 2"),
        (b"VAR_TEMP a:INT\nb:INT;", b"!13 1"),
        (b"VAR_TEMP \"a\":INT;", b"!21 1"),
        (b"VAR_TEMP 5:INT;", b"!11 1"),
        (b"VAR_TEMP BEGIN\nNETWORK", b"!11 2"),
        (b"VAR_INPUT a:INT;END_VAR", b"!21 1"),
        (b"VAR_TEMP a:INT;END_VAR\nVAR", b"!21 2"),
        (b"VAR_FOO", b"=0 0"),
    ];
    assert_read(&rt, rt.alloc(), Part::Declarations, &rows)
}

#[test]
fn values_at_fault(rt: HostRuntime) -> Result<(), Fail> {
    let rows: [(&[u8], &[u8]); 20] = [
        (b"STRUCT a:INT:=\n1\n.5;", b"!13 2"),
        (b"STRUCT a:BOOL:=\n1.5;", b"!11 2"),
        (b"STRUCT a:INT:=\n1E5;", b"!11 2"),
        (b"STRUCT a:INT:=5,\n6;", b"!11 2"),
        (b"STRUCT a:INT:=5,\n\"6\";", b"!21 2"),
        (b"STRUCT a:ARRAY[0..1]OF INT:=\n3(5);", b"!11 2"),
        (b"STRUCT a:ARRAY[0..1]OF INT:=2(\nTRUE);", b"!11 2"),
        (b"STRUCT a:ARRAY[0..1]OF INT:=2(5\n;", b"!11 2"),
        (
            b"STRUCT a:ARRAY[0..1]OF INT:=2(5),0(5);END_STRUCT",
            b"A@0 =4 23",
        ),
        (b"STRUCT a:INT:=\n32768;", b"!11 2"),
        (
            b"STRUCT a:INT:=-32768;b:INT:=+32767;END_STRUCT",
            b"A@0 B@16 =4 16",
        ),
        (b"STRUCT a:INT:=L#5;", b"!11 1"),
        (
            b"STRUCT a:BYTE:=2#00000000;b:BYTE:=\n2#000000001;",
            b"!11 2",
        ),
        (
            b"STRUCT a:WORD:=2#1111111111111111;b:WORD:=\n2#00000000000000001;",
            b"!11 2",
        ),
        (b"STRUCT a:CHAR:='ab';", b"!11 1"),
        (b"STRUCT a:DATE:=W#16#1;", b"!11 1"),
        (b"STRUCT a:DWORD:=W#16#1;", b"!11 1"),
        (b"STRUCT a:INT:=P#M0;", b"!21 1"),
        (b"STRUCT a:INT:=5;;", b"!11 1"),
        (b"STRUCT a:INT END_STRUCT\n;", b"!13 1"),
    ];
    assert_read(&rt, rt.alloc(), Part::Declarations, &rows)
}

#[test]
fn values(rt: HostRuntime) -> Result<(), Fail> {
    let rows: [(&[u8], &[u8]); 15] = [
        (
            b"STRUCT a:BOOL:=TRUE;b:BOOL;c:BOOL:=true;d:BYTE:=B#16#A5;e:CHAR:='x';f:WORD:=W#16#1234;g:INT:=-2;h:S5TIME:=S5T#2S;i:DWORD:=DW#16#89ABCDEF;j:DINT:=L#-1;k:TIME:=T#1S;END_STRUCT BEGIN END_DATA_BLOCK",
            b"05A578001234FFFE020089ABCDEFFFFFFFFF000003E8",
        ),
        (
            b"STRUCT a:ARRAY[1..3]OF BOOL:=2(TRUE),FALSE;b:ARRAY[0..2]OF BYTE:=B#16#1,2(B#16#2);c:ARRAY[0..3]OF INT:=0(7),2(5);d:WORD:=C#123;e:BYTE:=2#101;END_STRUCT BEGIN END_DATA_BLOCK",
            b"030001020200000500050000000001230500",
        ),
        (
            b"STRUCT a:INT:=1;b:ARRAY[-1..1]OF BOOL;END_STRUCT BEGIN a:=2;A:=3;B[0]:=TRUE;b[1]:=true;B[1]:=FALSE;END_DATA_BLOCK",
            b"00030200",
        ),
        (
            b"STRUCT a:TIME:=T#-1MS;b:S5TIME:=S5T#10S;END_STRUCT BEGIN END_DATA_BLOCK",
            b"FFFFFFFF1100",
        ),
        (b"STRUCT END_STRUCT BEGIN END_DATA_BLOCK", b""),
        (b"STRUCT a:INT;END_STRUCT BEGIN\nb:=1;", b"!12 2"),
        (b"STRUCT a:INT;END_STRUCT BEGIN a[\n0]:=1;", b"!11 2"),
        (
            b"STRUCT a:ARRAY[1..2]OF INT;END_STRUCT BEGIN\na //\n//\n",
            b"!13 3",
        ),
        (
            b"STRUCT a:ARRAY[1..2]OF INT;END_STRUCT BEGIN\na\n:=1;",
            b"!11 2",
        ),
        (
            b"STRUCT a:ARRAY[1..2]OF INT;END_STRUCT BEGIN a[\n0]:=1;",
            b"!11 2",
        ),
        (
            b"STRUCT a:ARRAY[1..2]OF INT;END_STRUCT BEGIN a[1\n,2]:=1;",
            b"!11 2",
        ),
        (b"STRUCT a:INT;END_STRUCT BEGIN a:=\nTRUE;", b"!11 2"),
        (
            b"STRUCT a:INT;END_STRUCT BEGIN a:=\n1\nEND_DATA_BLOCK",
            b"!13 2",
        ),
        (b"STRUCT a:INT;END_STRUCT BEGIN a:=1;\n", b"!13 1"),
        (b"FB 1 BEGIN", b"!21 1"),
    ];
    assert_read(&rt, rt.alloc(), Part::Data, &rows)
}

fn constant_of(alloc: Global, text: &[u8]) -> Result<Constant, Fail> {
    let found = tokens_of(alloc, text)?;
    if text.len() > 1_048_576 {
        return Err(Fail::from("too long"));
    }
    match value_at(text, found.as_slice()) {
        Ok((read, _)) => Ok(read.constant),
        Err(_) => Err(Fail::from("no value")),
    }
}

#[test]
fn constants(rt: HostRuntime) -> Result<(), Fail> {
    let rows: [(&[u8], ConstantForm, u32); 12] = [
        (b"-5", ConstantForm::Integer, 65_531),
        (b"+ 5", ConstantForm::Integer, 5),
        (b"L#-2147483648", ConstantForm::LongInteger, 2_147_483_648),
        (b"byte#16#F_F", ConstantForm::Byte, 255),
        (b"DWORD#16#1", ConstantForm::DoubleWord, 1),
        (b"2#0_0001", ConstantForm::Bits(5), 1),
        (b"C#999", ConstantForm::Counter, 0x999),
        (b"S5T#9990S", ConstantForm::TimerStart, 0x3999),
        (b"S5T#0MS", ConstantForm::TimerStart, 0),
        (b"T#1D1H1M1S1MS", ConstantForm::Time, 90_061_001),
        (b"'ABCD'", ConstantForm::Characters(4), 0x4142_4344),
        (b"false", ConstantForm::Boolean, 0),
    ];
    for (text, form, value) in rows {
        assert_eq!(rt; constant_of(rt.alloc(), text)?, Constant { form, value });
    }
    Ok(())
}

#[test]
fn errors_tell_line_and_kind(rt: HostRuntime) -> Result<(), Fail> {
    let fault = DeclError::Fault(LoadFault { kind: 7, line: 12 });
    let text = format!(in rt.alloc(); "{fault}, {}", DeclError::NoMemory)?;
    assert_eq!(rt; text.as_str(), "line 12: fault 7, out of memory");
    Ok(())
}
