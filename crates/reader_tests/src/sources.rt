use block_loader::*;
use s7_base::{Blocks, CodeBlock, CodeKind, DataBlock};
use std::alloc::Global;
use std::test::Fail;

fn push_code(alloc: Global, all: &mut Vec<u8>, code: &CodeBlock) -> Result<(), Fail> {
    let kind = match code.kind() {
        CodeKind::Ob => "OB",
        CodeKind::Fb => "FB",
        CodeKind::Fc => "FC",
    };
    let number = code.number();
    let count = code.statements().len();
    let text = format!(in alloc; "{kind} {number} {count}/")?;
    all.extend_from_slice(text.as_bytes())?;
    Ok(())
}

fn push_data(alloc: Global, all: &mut Vec<u8>, block: &DataBlock) -> Result<(), Fail> {
    let number = block.number();
    let count = block.bytes().len();
    let text = format!(in alloc; "DB {number} {count}/")?;
    all.extend_from_slice(text.as_bytes())?;
    Ok(())
}

fn list_of(alloc: Global, blocks: &Blocks) -> Result<Vec<u8>, Fail> {
    let mut all = Vec::new(alloc);
    for code in blocks.codes() {
        push_code(alloc, &mut all, code)?;
    }
    for block in blocks.data_blocks() {
        push_data(alloc, &mut all, block)?;
    }
    Ok(all)
}

/// Each block as its kind, number and size, or a fault as `!`, its kind and its line.
fn shown(alloc: Global, source: &[u8]) -> Result<Vec<u8>, Fail> {
    if source.len() > 1_048_576 {
        return Err(Fail::from("too long"));
    }
    match load(alloc, source) {
        Ok(blocks) => list_of(alloc, &blocks),
        Err(LoadError::Fault(fault)) => {
            let kind = fault.kind;
            let line = fault.line;
            Ok(format!(in alloc; "!{kind} {line}")?.into_bytes())
        }
        Err(LoadError::NoMemory) => Err(Fail::from("no memory")),
    }
}

#[test]
fn sources(rt: HostRuntime) -> Result<(), Fail> {
    let rows: [(&[u8], &[u8]); 25] = [
        (b"", b"!18 0"),
        (b"(* x", b"!4 1"),
        (
            b"ORGANIZATION_BLOCK OB 1\nBEGIN\nA I 0.0;\n= Q 0.0;\nEND_ORGANIZATION_BLOCK\n",
            b"OB 1 2/",
        ),
        (
            b"ORGANIZATION_BLOCK OB 1\nBEGIN\nJU nope;\nNOP 0;\nNOP 0;\nNOP 0;\n+R;\nEND_ORGANIZATION_BLOCK\n",
            b"!10 7",
        ),
        (
            b"ORGANIZATION_BLOCK OB 1\nBEGIN\nA I 0.9; FOO;\n= Q 0.0;\nEND_ORGANIZATION_BLOCK\n",
            b"!11 3",
        ),
        (
            b"DATA_BLOCK DB 1 STRUCT a : REAL; END_STRUCT BEGIN END_DATA_BLOCK",
            b"!6 1",
        ),
        (
            b"FUNCTION FC 2 : VOID BEGIN END_FUNCTION DATA_BLOCK DB 9 STRUCT a:INT; END_STRUCT BEGIN END_DATA_BLOCK function_block FB 1 begin END_FUNCTION_BLOCK FUNCTION FC 1 : VOID BEGIN END_FUNCTION ORGANIZATION_BLOCK OB 1 BEGIN CALL FC 1; END_ORGANIZATION_BLOCK",
            b"OB 1 1/FB 1 0/FC 1 0/FC 2 0/DB 9 2/",
        ),
        (b"ORGANIZATION_BLOCK OB 2", b"!21 1"),
        (b"FUNCTION FC 256", b"!11 1"),
        (b"DATA_BLOCK DB 0", b"!11 1"),
        (b"FUNCTION FC 1 : REAL", b"!6 1"),
        (b"FUNCTION FC 1 : INT", b"!21 1"),
        (b"FUNCTION FC 1 : 5", b"!11 1"),
        (b"DATA_BLOCK DB 1 FB 1 BEGIN", b"!21 1"),
        (b"FUNCTION FC 1 : VOID\nVERSION : 0.1\nVAR_INPUT", b"!21 3"),
        (b"FUNCTION FC 1 : VOID\nSTRUCT", b"!11 2"),
        (b"FUNCTION FC 1 : VOID\nBEGIN\n", b"!13 2"),
        (
            b"FUNCTION FC 1 : VOID BEGIN END_FUNCTION\nFUNCTION FC 1 : VOID BEGIN END_FUNCTION ORGANIZATION_BLOCK OB 1 BEGIN END_ORGANIZATION_BLOCK",
            b"!14 2",
        ),
        (
            b"ORGANIZATION_BLOCK OB 1 BEGIN a:; \na:; JU b; END_ORGANIZATION_BLOCK",
            b"!15 2",
        ),
        (
            b"ORGANIZATION_BLOCK OB 1 BEGIN\nJU b;\na:;a:; END_ORGANIZATION_BLOCK",
            b"!16 2",
        ),
        (
            b"ORGANIZATION_BLOCK OB 1 BEGIN\nJL b; b: NOP 0; END_ORGANIZATION_BLOCK",
            b"!16 2",
        ),
        (
            b"ORGANIZATION_BLOCK OB 1 BEGIN\nJL b; JU b; b: NOP 0; END_ORGANIZATION_BLOCK",
            b"OB 1 3/",
        ),
        (
            b"DATA_BLOCK DB 1 STRUCT a:ARRAY[0..4096]OF INT; END_STRUCT BEGIN END_DATA_BLOCK ORGANIZATION_BLOCK OB 1 BEGIN END_ORGANIZATION_BLOCK",
            b"!20 1",
        ),
        (
            b"ORGANIZATION_BLOCK OB 1\nVAR_TEMP a:ARRAY[0..128]OF INT;END_VAR BEGIN END_ORGANIZATION_BLOCK",
            b"!20 1",
        ),
        (b"FUNCTION FC 1 : VOID BEGIN JU b; END_FUNCTION", b"!18 0"),
    ];
    for (source, want) in rows {
        assert_eq!(rt; shown(rt.alloc(), source)?.as_slice(), want);
    }
    Ok(())
}

#[test]
fn a_source_in_the_style_of_an_export(rt: HostRuntime) -> Result<(), Fail> {
    let source =
        b"DATA_BLOCK DB 1\nTITLE =Recipe\nVERSION : 0.1\n\n  STRUCT\n   Count : INT  := 0;\t//parts\n   Limit : INT  := 5;\n  END_STRUCT ;\nBEGIN\n   Count := 0;\n   Limit := 5;\nEND_DATA_BLOCK\n\nORGANIZATION_BLOCK OB 1\nTITLE =Main program\nVERSION : 0.1\n\nVAR_TEMP\n  OB1_EV_CLASS : BYTE ;\n  OB1_DATE_TIME : DATE_AND_TIME ;\n  OB1_PREV_CYCLE : INT ;\nEND_VAR\nBEGIN\nNETWORK\nTITLE =Start and stop\n      A(    ;\n      O     I      0.0;\n      O     Q      0.0;\n      )     ;\n      AN    I      0.1;\n      =     Q      0.0;\nNETWORK\nTITLE =Count parts\n      A     I      0.2;\n      FP    M     10.0;\n      JNB   _001;\n      L     DB1.DBW    0;\n      L     1;\n      +I    ;\n      T     DB1.DBW    0;\n_001: NOP   0;\n      L     #OB1_PREV_CYCLE;\n      T     MW    20;\nEND_ORGANIZATION_BLOCK\n";
    assert_eq!(rt;
        shown(rt.alloc(), source)?.as_slice(),
        b"OB 1 16/DB 1 4/".as_slice()
    );
    Ok(())
}

#[test]
fn errors_tell_line_and_kind(rt: HostRuntime) -> Result<(), Fail> {
    let fault = LoadError::Fault(stl_lex::LoadFault { kind: 7, line: 12 });
    let text = format!(in rt.alloc(); "{fault}, {}", LoadError::NoMemory)?;
    assert_eq!(rt; text.as_str(), "line 12: fault 7, out of memory");
    Ok(())
}
