ghost use Rattle.mc_machine.specs.Stands.{IsRunning};

use super::{begin, give, machine_of};
use mc_machine::Machine;
use s7_base::{Answer, Area, Ask};
use std::alloc::Global;
use std::process::Abort;
use std::test::Fail;

/// The number of some bytes of bit memory, the highest first.
fn flags(machine: &Machine, first: u16, last: u16) -> u64
    requires { IsRunning machine.now }
{
    let mut number = 0u64;
    for at in first..last {
        let byte = machine.image_byte(Area::M, at).unwrap_or(0);
        number = number.wrapping_mul(256).wrapping_add(u64::from(byte));
    }
    number
}

/// The fields of a row, up to four.
fn fields(row: &str) -> [&str; 4] {
    let (first, rest) = row.split_once(" | ").unwrap_or((row, ""));
    let (second, rest) = rest.split_once(" | ").unwrap_or((rest, ""));
    let (third, fourth) = rest.split_once(" | ").unwrap_or((rest, ""));
    [first, second, third, fourth]
}

/// ACCU1 and the status word after these statements.
fn left_by(rt: &impl Abort, alloc: Global, text: &str) -> Result<(u64, u64), Fail> {
    let mut machine = machine_of(alloc, text, "T MD0;L STW;T MW4")?;
    begin(rt, &mut machine, [0; 64]);
    assert_eq!(rt; give(rt, &mut machine, Answer::Go, 2).ask, Ask::Cycle);
    Ok((flags(&machine, 0, 4), flags(&machine, 4, 6)))
}

/// Statements, and then ACCU1 and the status word. In the latter /FC counts 1, RLO 2, STA 4, OR 8, OS 16, OV 32, CC0 64,
/// CC1 128 and BR 256.
const VALUES: &str = "\
L 2;L 3;+I | 5 | 128
L 3;L 2;-I | 1 | 128
L 2;L 3;-I | FFFF | 64
L 2;L 2;-I | 0 | 0
L W#7FFF;L 1;+I | 8000 | 112
L W#8000;L W#FFFF;+I | 7FFF | 176
L D#12340001;L D#56780002;+I | 56780003 | 128
L 300;L 300;*I | 15F90 | 176
L 100;L -3;*I | FFFFFED4 | 64
L 0;L 5;*I | 0 | 0
L 7;L 2;/I | 10003 | 128
L -7;L 2;/I | FFFFFFFD | 64
L 1;L 2;/I | 10000 | 0
L W#8000;L -1;/I | 8000 | 176
L 5;L 0;/I | 0 | 240
L 5;L 0;/I;TAK | 5 | 240
L L#70000;L L#30000;+D | 186A0 | 128
L D#7FFFFFFF;L L#1;+D | 80000000 | 112
L L#5;L L#7;-D | FFFFFFFE | 64
L L#100000;L L#100000;*D | 540BE400 | 176
L D#00010000;L D#FFFF0000;*D | 0 | 112
L L#-7;L L#2;/D | FFFFFFFD | 64
L L#-7;L L#2;MOD | FFFFFFFF | 64
L L#7;L L#7;MOD | 0 | 0
L D#80000000;L L#-1;/D | 80000000 | 176
L D#80000000;L L#-1;MOD | 0 | 0
L L#5;L L#0;MOD | 0 | 240
L 5;NEGI | FFFB | 64
L W#8000;NEGI | 8000 | 112
L D#1234FFFF;NEGI | 12340001 | 128
L L#1;NEGD | FFFFFFFF | 64
L D#80000000;NEGD | 80000000 | 112
L 0;NEGD | 0 | 0
L 8;PUSH;PUSH;L 5;L 6;+I;TAK | 8 | 128
L W#00FF;INVI | FF00 | 0
L 1;INVD | FFFFFFFE | 0
L W#8123;BTI | FF85 | 0
L D#80000042;BTD | FFFFFFD6 | 0
L -5;ITB | F005 | 0
L 1000;ITB | 3E8 | 48
L L#-42;DTB | F0000042 | 0
L W#8000;ITD | FFFF8000 | 0
L 2;L 3;<I | 3 | 71
L 2;L 3;>I | 3 | 65
L 3;L 3;==I | 3 | 7
L 3;L 3;<>I | 3 | 1
L 3;L 2;>=I | 2 | 135
L 3;L 2;<=I | 2 | 129
L W#8000;L 0;<I | 0 | 71
L D#80000000;L 0;<D | 0 | 71
L W#8000;L 0;<D | 0 | 129
L L#1;L L#1;>=D | 1 | 7
L L#1;L L#2;<>D | 2 | 71
L L#1;L L#2;==D | 2 | 65
L L#1;L L#2;>D | 2 | 65
L L#1;L L#2;<=D | 2 | 71
L W#7FFF;L 1;+I;L 1;L 1;==I | 1 | 23
L W#FF0F;L W#0FFF;AW | F0F | 128
L W#F0F0;L W#0F0F;AW | 0 | 0
L W#F000;L W#000F;OW | F00F | 128
L W#FFFF;L W#FF00;XOW | FF | 128
L D#ABCD1234;AW W#00FF | ABCD0034 | 128
L D#FFFF0000;L D#00FF00FF;AD | FF0000 | 128
L D#FFFF0000;L D#00FF00FF;OD | FFFF00FF | 128
L D#FFFF0000;L D#00FF00FF;XOD | FF0000FF | 128
L 0;OD D#80000000 | 80000000 | 128
L 5;XOW W#0005 | 0 | 0
L 1;SLW 4 | 10 | 0
L D#12348001;SLW 1 | 12340002 | 128
L W#8001;SRW 1 | 4000 | 128
L W#8000;SSI 3 | F000 | 0
L W#8004;SSI 3 | F000 | 128
L D#80000001;SLD 1 | 2 | 128
L D#80000001;SRD 1 | 40000000 | 128
L D#80000000;SSD 31 | FFFFFFFF | 0
L D#80000001;RLD 1 | 3 | 128
L 1;RRD 1 | 80000000 | 128
L 4;L 1;SLW | 10 | 0
L 17;L W#FFFF;SLW | 0 | 0
L 0;L W#FFFF;SLW | FFFF | 0
L 20;L W#8000;SSI | FFFF | 128
L 32;L 1;RLD | 1 | 128
L W#7FFF;L 1;+I;SLW 0 | 8000 | 112
L W#7FFF;L 1;+I;SLW 1 | 0 | 144
L 1;L 2;TAK | 1 | 0
L 1;L 2;POP | 1 | 0
L 7;PUSH;ENT;L 1;L 2;LEAVE;TAK | 7 | 0
L W#1234;CAW | 3412 | 0
L D#12345678;CAD | 78563412 | 0
L W#01FF;INC 2 | 101 | 0
L 0;DEC 1 | FF | 0
L 1;+ 5 | 6 | 0
L D#0001FFFF;+ 1 | 10000 | 0
L L#1;+ L#-2 | FFFFFFFF | 0
L 5;+ -6 | FFFF | 0
L W#01FF;T STW | 1FF | 511
L W#FE00;T STW | FE00 | 0
SET;L STW | 6 | 6
SET;= M9.0;A M9.0 | 0 | 7
A M9.0 | 0 | 1
AN M9.0 | 0 | 3
O M9.0 | 0 | 1
ON M9.0 | 0 | 3
X M9.0 | 0 | 1
XN M9.0 | 0 | 3
SET;O | 0 | 14
A( | 0 | 4
SET;A( | 0 | 6
SET;A(;CLR;) | 0 | 5
SET;= M9.0 | 0 | 6
SET;S M9.0 | 0 | 6
CLR;R M9.0 | 0 | 0
SET;NOT | 0 | 4
SET | 0 | 6
CLR | 0 | 0
SET;SAVE | 0 | 262
SET;FP M9.0 | 0 | 7
SET;FN M9.0 | 0 | 5
SET;MCR( | 0 | 6
SET;MCR(;CLR;)MCR | 0 | 4
SET;MCRA | 0 | 6
SET;CU C0 | 0 | 6
AN M9.0;CU C0 | 0 | 2
AN M9.0;FR C0 | 0 | 2
AN M9.0;R C0 | 0 | 2
AN M9.0;R T0 | 0 | 2
AN M9.0;FR T0 | 0 | 2
NOP 0;NOP 1;BLD 255 | 0 | 0
MCRA;MCR(;L 7;T STW;MCRD | 7 | 0
L W#0123;SET;S C0;LC C0 | 123 | 6
L W#0123;SET;S C0;L C0 | 7B | 6
SET;CU C0;FR C0;CU C0;L C0 | 2 | 6
L W#0999;SET;S C0;CU C0;L C0 | 3E7 | 6
SET;CD C255;L C255 | 0 | 6
L W#5;SET;S C0;CD C0;L C0 | 4 | 6
L 3;LOOP @1 | 0 | 0
L 0;LOOP @3;JU @4;L 7 | 7 | 0
L 1;LOOP @3;JU @4;L 7 | 0 | 0
L D#00050001;LOOP @3;JU @4;L 7 | 50000 | 0
L 0;JL @4;JU @6;JU @8;L 10;JU @9;L 11;JU @9;L 12 | B | 0
L 1;JL @4;JU @6;JU @8;L 10;JU @9;L 11;JU @9;L 12 | C | 0
L 2;JL @4;JU @6;JU @8;L 10;JU @9;L 11;JU @9;L 12 | A | 0
L 255;JL @4;JU @6;JU @8;L 10;JU @9;L 11;JU @9;L 12 | A | 0
L 256;JL @4;JU @6;JU @8;L 10;JU @9;L 11;JU @9;L 12 | B | 0";

#[test]
fn values_and_status_words(rt: HostRuntime) -> Result<(), Fail> {
    for row in VALUES.split('\n') {
        let [text, accu, status, _] = fields(row);
        let left = (u64::from_str_radix(accu, 16)?, status.parse::<u64>()?);
        assert_eq!(rt; left_by(&rt, rt.alloc(), text)?, left, "{text}");
    }
    Ok(())
}

/// A jump, the status word before it, the value that its target loads where it is taken (2, else 1), and the status word
/// after it.
const JUMPS: &str = "\
JU | 0 | 2 | 0
JC | 2 | 2 | 6
JC | 0 | 1 | 6
JC | 511 | 2 | 502
JCN | 2 | 1 | 6
JCN | 0 | 2 | 6
JCB | 2 | 2 | 262
JCB | 256 | 1 | 6
JNB | 2 | 1 | 262
JNB | 256 | 2 | 6
JBI | 256 | 2 | 260
JBI | 2 | 1 | 6
JNBI | 256 | 1 | 260
JNBI | 2 | 2 | 6
JO | 32 | 2 | 32
JO | 16 | 1 | 16
JOS | 16 | 2 | 0
JOS | 48 | 2 | 32
JOS | 32 | 1 | 32
JZ | 0 | 2 | 0
JZ | 64 | 1 | 64
JZ | 128 | 1 | 128
JZ | 192 | 1 | 192
JN | 0 | 1 | 0
JN | 64 | 2 | 64
JN | 128 | 2 | 128
JN | 192 | 1 | 192
JP | 0 | 1 | 0
JP | 64 | 1 | 64
JP | 128 | 2 | 128
JP | 192 | 1 | 192
JM | 0 | 1 | 0
JM | 64 | 2 | 64
JM | 128 | 1 | 128
JM | 192 | 1 | 192
JPZ | 0 | 2 | 0
JPZ | 64 | 1 | 64
JPZ | 128 | 2 | 128
JPZ | 192 | 1 | 192
JMZ | 0 | 2 | 0
JMZ | 64 | 2 | 64
JMZ | 128 | 1 | 128
JMZ | 192 | 1 | 192
JUO | 0 | 1 | 0
JUO | 64 | 1 | 64
JUO | 128 | 1 | 128
JUO | 192 | 2 | 192";

/// A status operand, the status word before its check, and after it.
const OPERANDS: &str = "\
==0 | 0 | 7
==0 | 64 | 65
==0 | 128 | 129
==0 | 192 | 193
<>0 | 0 | 1
<>0 | 64 | 71
<>0 | 128 | 135
<>0 | 192 | 193
>0 | 0 | 1
>0 | 64 | 65
>0 | 128 | 135
>0 | 192 | 193
<0 | 0 | 1
<0 | 64 | 71
<0 | 128 | 129
<0 | 192 | 193
>=0 | 0 | 7
>=0 | 64 | 65
>=0 | 128 | 135
>=0 | 192 | 193
<=0 | 0 | 7
<=0 | 64 | 71
<=0 | 128 | 129
<=0 | 192 | 193
UO | 0 | 1
UO | 64 | 65
UO | 128 | 129
UO | 192 | 199
BR | 256 | 263
BR | 0 | 1
OV | 32 | 39
OV | 0 | 1
OS | 16 | 23
OS | 0 | 1";

#[test]
fn jumps_taken_and_not(rt: HostRuntime) -> Result<(), Fail> {
    for row in JUMPS.split('\n') {
        let [jump, before, place, after] = fields(row);
        let text = format!(in rt.alloc(); "L {before};T STW;{jump} @5;L 1;JU @6;L 2")?;
        let left = (place.parse::<u64>()?, after.parse::<u64>()?);
        assert_eq!(rt; left_by(&rt, rt.alloc(), text.as_str())?, left, "{row}");
    }
    for row in OPERANDS.split('\n') {
        let [operand, before, after, _] = fields(row);
        let text = format!(in rt.alloc(); "L {before};T STW;A {operand}")?;
        let left = (before.parse::<u64>()?, after.parse::<u64>()?);
        assert_eq!(rt; left_by(&rt, rt.alloc(), text.as_str())?, left, "{row}");
    }
    Ok(())
}

const MOVES: &str =
    "L ID60;T QD60;T QW4;T QB7;T MD1020;T MW8;T MB11;L IW1;T MW0;L IB2;T MB2;L QW62;T MW4;\
L QD60;T MD12;L QB60;T MB3;T IB10;L MD1020;T ID20;T IW30;L MW9;T QW8;L MB1021;T QD12";

/// Bytes after `MOVES`, where the first three bytes of the image are 12 34 56 and the last four 9A BC DE F0.
const MOVED: &str = "\
Q | 60 | 9A
Q | 61 | BC
Q | 62 | DE
Q | 63 | F0
Q | 4 | DE
Q | 5 | F0
Q | 6 | 0
Q | 7 | F0
M | 1020 | 9A
M | 1023 | F0
M | 8 | DE
M | 9 | F0
M | 11 | F0
M | 0 | 34
M | 1 | 56
M | 2 | 56
M | 4 | DE
M | 5 | F0
M | 12 | 9A
M | 15 | F0
M | 3 | 9A
I | 10 | 9A
I | 20 | 9A
I | 21 | BC
I | 22 | DE
I | 23 | F0
I | 30 | DE
I | 31 | F0
Q | 8 | F0
Q | 9 | 0
Q | 12 | 0
Q | 15 | BC";

#[test]
fn bytes_words_and_double_words(rt: HostRuntime) -> Result<(), Fail> {
    let mut machine = machine_of(rt.alloc(), MOVES, "NOP 0")?;
    let mut image = [0; 64];
    image[0] = 0x12;
    image[1] = 0x34;
    image[2] = 0x56;
    image[60] = 0x9A;
    image[61] = 0xBC;
    image[62] = 0xDE;
    image[63] = 0xF0;
    begin(&rt, &mut machine, image);
    give(&rt, &mut machine, Answer::Go, 2);
    for row in MOVED.split('\n') {
        let [area, at, byte, _] = fields(row);
        let area = match area {
            "I" => Area::I,
            "Q" => Area::Q,
            _ => Area::M,
        };
        let byte = u8::from_str_radix(byte, 16)?;
        assert_eq!(rt;
            machine.image_byte(area, at.parse::<u16>()?),
            Some(byte),
            "{row}"
        );
    }
    assert_eq!(rt; machine.image_byte(Area::M, 1024), None);
    Ok(())
}
