// Operations on the registers (document 01, "Operations").
ghost use Rattle.std.specs.Prelude.{ℕ, get_or, set, take, List, ◌≡◌};
ghost use Rattle.transactions.specs.Content.{Operation};
ghost use Rattle.transactions.specs.Body.{operation_in};
ghost use Rattle.sheets.specs.Inner.{left_in};
ghost use Rattle.sheets.specs.Operations.{Leaves, operate, operate_to, operated};
ghost use Rattle.sheets.specs.Sheet.{sheet_in};
ghost use Rattle.sums.specs.Seq.{tabulate};

use crate::sheet::{Sizes, slot_of};
use fields::{byte_at, put};
use transactions::lists::{code_at, operations, register_at, value_at};

// What a run of operations leaves.
#[derive(Clone, Copy)]
pub struct Ran {
    pub passes: bool,
    pub registers: [u32; 64],
}

// The codes of the operations.
const EQUALS: u8 = 0;

const IS_AT_LEAST: u8 = 1;

const SET: u8 = 2;

const ADD: u8 = 3;

const SUBTRACT: u8 = 4;

// The register i of g.
fn register_of(g: u16, registers: [u32; 64], i: u8) -> u32
    ensures { result ≡ get_or (take g registers) i 0 }
{
    if u16::from(i) < g {
        registers.get(usize::from(i)).copied().unwrap_or(0)
    } else {
        0
    }
}

// The registers with v in register i.
#[tactic(auto, using(crate::proofs::OperationCells::take_of_set))]
fn store(g: u16, mut registers: [u32; 64], i: u8, v: u32) -> [u32; 64]
    ensures { take g result ≡ set (take g registers) i v }
{
    put(&mut registers, usize::from(i), v);
    registers
}

// What an operation leaves in its register, which holds v; None where it does not pass.
#[tactic(auto, using(crate::proofs::OperationCells::operate_by_code))]
fn left_by(code: u8, value: u32, v: u32) -> Option<u32>
    ensures { (op : Operation) (r : List ℕ) → op.code ≡ code → op.value ≡ value → get_or r op.register 0 ≡ v
        → operate op r ≡ left_in r op.register result }
{
    match code {
        EQUALS => (v == value).then_some(v),
        IS_AT_LEAST => (value <= v).then_some(v),
        SET => Some(value),
        ADD => v.checked_add(value),
        SUBTRACT => v.checked_sub(value),
        _ => None,
    }
}

// Operation k of a list.
fn operate_on(g: u16, list: &[u8], k: u8, registers: [u32; 64]) -> Ran
    ensures { Leaves g result (operate (operation_in list.now k) (take g registers)) }
{
    let i = register_at(list, k);
    let v = register_of(g, registers, i);
    match left_by(code_at(list, k), value_at(list, k), v) {
        Some(left) => Ran {
            passes: true,
            registers: store(g, registers, i, left),
        },
        None => Ran {
            passes: false,
            registers,
        },
    }
}

// The first n operations of a list, up to the first that does not pass.
fn run_list(g: u16, list: &[u8], n: u8, registers: [u32; 64]) -> Ran
    ensures { Leaves g result (operate_to (tabulate n (operation_in list.now)) n (take g registers)) }
{
    let mut cells = registers;
    for k in 0..n {
        let ran = operate_on(g, list, k, cells);
        if !ran.passes {
            return ran;
        }
        let next = ran.registers;
        cells = next;
    }
    Ran {
        passes: true,
        registers: cells,
    }
}

// Transaction x's operations on the registers, up to the first that does not pass; none where there is no transaction.
pub fn run(sheet: &[u8], z: Sizes, x: u16, registers: [u32; 64]) -> Ran
    ensures { Leaves z.g result (operated (sheet_in sheet.now z) x (take z.g registers)) }
{
    if z.t <= x {
        return Ran {
            passes: true,
            registers,
        };
    }
    let body = slot_of(sheet, z, x);
    run_list(z.g, operations(body), byte_at(body, 3), registers)
}
