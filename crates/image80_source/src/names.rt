//! Names of publics that an assembler takes as labels.

use crate::covered::ADDRESSES;
use image80_text::PublicTable;
use indexmap::IndexSet;
use std::alloc::{AllocError, Global};

/// The words that are no labels, each between blanks: registers, operators, directives and mnemonics, those of the 8085 too.
const RESERVED: &[u8] =
    b" A B C D E H L M SP PSW STACK MEMORY NUL LOW HIGH MOD SHL SHR EQ NE LT LE GT GE NOT AND OR XOR \
ASEG CSEG DSEG PAGE INPAGE DB DW DS ELSE END ENDIF ENDM EOT EQU EXITM EXTRN IF IRP IRPC LOCAL MACRO NAME ORG PUBLIC REPT SET \
STKLN TITLE \
MOV MVI LXI LDA STA LHLD SHLD LDAX STAX XCHG ADD ADI ADC ACI SUB SUI SBB SBI INR DCR INX DCX DAD DAA ANA ANI XRA XRI ORA ORI \
CMP CPI RLC RRC RAL RAR CMA CMC STC JMP JNZ JZ JNC JC JPO JPE JP JM CALL CNZ CZ CNC CC CPO CPE CP CM RET RNZ RZ RNC RC RPO \
RPE RP RM RST PCHL PUSH POP XTHL SPHL IN OUT EI DI NOP HLT RIM SIM ";

/// By address, whether the name of its first public can be a label: it has that form, and no lower address has the name.
pub(crate) fn own_names(alloc: Global, publics: &PublicTable) -> Result<Vec<bool>, AllocError> {
    let mut own = Vec::new(alloc);
    let mut used = IndexSet::new(alloc);
    for address in 0..ADDRESSES {
        let is_own = match publics.at(address as u16) {
            Some(public) if is_label(public.name.bytes()) => used.insert(public.name.bytes())?,
            _ => false,
        };
        own.push(is_own)?;
    }
    Ok(own)
}

/// Whether a name can be a label: one to six letters, digits, `@` and `?`, the first of them no digit. No word of the
/// assembler is one, nor what looks like a label that is made of an address or like the name of a port.
fn is_label(name: &[u8]) -> bool {
    match name {
        [first, rest @ ..] => {
            is_letter(*first)
                && rest.len() < 6
                && rest
                    .iter()
                    .all(|byte| is_letter(*byte) || byte.is_ascii_digit())
                && !is_made(*first, rest)
                && !is_reserved(name)
        }
        [] => false,
    }
}

/// Whether a byte may begin a label.
fn is_letter(byte: u8) -> bool {
    byte.is_ascii_uppercase() || byte == b'@' || byte == b'?'
}

/// Whether a name is made of an address, L or R and four digits, or of a port, P and two digits.
fn is_made(first: u8, rest: &[u8]) -> bool {
    let most = match first {
        b'L' | b'R' => 4,
        b'P' => 2,
        _ => return false,
    };
    rest.len() == most && rest.iter().all(|byte| is_digit(*byte))
}

/// Whether a byte is an upper case hexadecimal digit.
fn is_digit(byte: u8) -> bool {
    byte.is_ascii_digit() || (b'A'..=b'F').contains(&byte)
}

/// Whether a name is a word of the assembler.
fn is_reserved(name: &[u8]) -> bool {
    RESERVED
        .split(|byte| *byte == b' ')
        .any(|word| word == name)
}
