use super::{begin, give, machine_of};
use s7_base::{Answer, Area, Ask};
use std::alloc::Global;
use std::process::Abort;
use std::test::Fail;

/// Q 0.0 after one cycle over each of the 16 values of input byte 0, a bit each.
fn lamps(rt: &impl Abort, alloc: Global, text: &str) -> Result<u32, Fail> {
    let mut all = 0;
    for byte in 0..16u8 {
        let mut machine = machine_of(alloc, text, "= Q0.0")?;
        let mut image = [0; 64];
        image[0] = byte;
        begin(rt, &mut machine, image);
        assert_eq!(rt; give(rt, &mut machine, Answer::Go, 2).ask, Ask::Cycle);
        if machine.image_byte(Area::Q, 0) == Some(1) {
            all |= 1 << byte;
        }
    }
    Ok(all)
}

/// With the inputs a to d of bits 0 to 3, a alone is AAAA, b is CCCC, c is F0F0 and d is FF00.
const RUNGS: &str = "\
A I0.0;A I0.1;O;A I0.2;A I0.3 | F888
A I0.0 | AAAA
AN I0.0 | 5555
O I0.0;O I0.1 | EEEE
O I0.0;ON I0.1 | BBBB
X I0.0;X I0.1 | 6666
X I0.0;XN I0.1 | 9999
XN I0.0;X I0.1 | 9999
A I0.0;AN I0.1 | 2222
A I0.0;O I0.1;A I0.2 | E0E0
A I0.0;X I0.1;X I0.2 | 9696
A(;O I0.0;O I0.1;);A(;O I0.2;O I0.3;) | EEE0
A I0.0;O;A(;O I0.1;O I0.2;);A I0.3 | FEAA
A I0.0;O(;A I0.1;A I0.2;) | EAEA
A I0.0;ON(;A I0.1;A I0.2;) | BFBF
X(;A I0.0;A I0.1;);X(;A I0.2;A I0.3;) | 7888
A I0.0;XN(;O I0.1;O I0.2;) | A9A9
AN(;A I0.0;A I0.1;) | 7777
A(;A(;A(;A(;A(;A(;A(;A I0.0;);AN I0.1;);O I0.2;);A I0.3;);X I0.0;);O I0.1;);AN I0.2;) | 0C0E
A I0.0;NOT | 5555
A I0.0;NOT;A I0.1 | 4444
SET | FFFF
CLR | 0000
SET;A I0.0 | AAAA
CLR;O I0.0 | AAAA
A I0.0;SAVE;A BR | AAAA
A I0.0;SAVE;= M0.0;A I0.1;A BR | 8888
A I0.0;= M0.0;A I0.1 | CCCC
A I0.0;S M0.0;O I0.1 | CCCC
A I0.0;S M0.0;A M0.0 | AAAA
SET;= M0.0;A I0.0;R M0.0;A M0.0 | 5555
A I0.0;FP M1.0 | AAAA
A I0.0;FN M1.0 | 0000
SET;= M1.0;A I0.0;FP M1.0 | 0000
SET;= M1.0;A I0.0;FN M1.0 | 5555
A I0.0;FP M1.0;A I0.1 | 8888
A I0.0;FP M1.0;= M2.0;A M1.0 | AAAA
A I0.0;O;O I0.1;A I0.2 | C0C0
A I0.0;O;X I0.1;A I0.2 | C0C0
A I0.0;O;AN I0.1 | BBBB
O;A I0.0 | AAAA
A I0.0;O;NOT;A I0.1 | EEEE
MCRA;A I0.0;MCR(;A I0.1 | 8888
A I0.0;MCR(;A I0.1 | CCCC
MCRA;A I0.0;MCR(;A I0.1;MCR(;A I0.2 | 8080
MCRA;A I0.0;MCR(;A I0.1;MCR(;)MCR;A I0.2 | A0A0
MCRA;A I0.0;MCR(;)MCR;A I0.1 | CCCC
MCRA;A I0.0;MCR(;MCRD;A I0.1 | CCCC
MCRA;A I0.0;MCR(;)MCR | AAAA
MCRA;A I0.0;MCR(;A I0.1;S M0.0;)MCR;A M0.0 | 8888
SET;S M0.0;MCRA;A I0.0;MCR(;A I0.1;R M0.0;)MCR;A M0.0 | 7777
SET;= M0.0;MCRA;A I0.0;MCR(;SET;= M0.0;)MCR;A M0.0 | AAAA
L 255;T MB0;MCRA;A I0.0;MCR(;L 1;T MB0;)MCR;A M0.0 | AAAA
L 255;T MB0;MCRA;A I0.0;MCR(;L 1;T MB0;)MCR;A M0.7 | 0000
MCRA;CLR;MCR(;A I0.0;FP M1.0;)MCR;A M1.0 | AAAA
A I0.0;JC @4;SET;JU @5;CLR | 5555
A I0.0;JCN @4;SET;JU @5;CLR | AAAA
A I0.0;JCB @2;A BR | AAAA
A I0.0;JNB @2;A BR | AAAA
A I0.0;SAVE;JBI @5;SET;JU @6;CLR | 5555
A I0.0;SAVE;JNBI @5;SET;JU @6;CLR | AAAA
A I0.0;JC @2 | FFFF
A I0.0;JBI @2 | AAAA
A I0.0;= Q0.0;BE;SET | AAAA
A I0.0;= Q0.0;BEU;SET | AAAA
SET;= Q0.0;A I0.0;BEC;CLR | AAAA
CLR;= Q0.0;A I0.0;BEC | 5555
A I0.0;CU C0;A C0 | AAAA
A I0.0;CD C0;A C0 | 0000
L W#7;A I0.0;S C0;A C0 | AAAA
L W#7;SET;S C0;A I0.0;R C0;AN C0 | AAAA";

#[test]
fn rungs_over_all_inputs(rt: HostRuntime) -> Result<(), Fail> {
    for row in RUNGS.split('\n') {
        let Some((text, expected)) = row.split_once(" | ") else {
            return Err("no row".into());
        };
        let lit = u32::from_str_radix(expected, 16)?;
        assert_eq!(rt; lamps(&rt, rt.alloc(), text)?, lit, "{text}");
    }
    Ok(())
}
