ghost use Rattle.std.specs.Prelude.{◌≡◌, ◌<◌, ◌≤◌, ◌^◌, All, IfOk, length, map, position};
ghost use Rattle.std.specs.List.{AllPairs};
ghost use Rattle.std.specs.List.Sorted.{IsNonDecreasingBy};
ghost use Rattle.rw_elf.specs.Tables.{IsNameIn};
ghost use Rattle.rw_funcs.specs.Functions.{end_of, function_at, has_address};
ghost use Rattle.rw_funcs.specs.Found.{FollowsOn};

use rw_base::Span;
use rw_elf::ranges::{Ranged, number_around};
use rw_elf::{Elf, NameAt, Symbol};
use std::alloc::{AllocError, Global};

/// A function of a file.
#[derive(Clone, Copy, Debug, PartialEq, Eq)]
pub struct Function {
    /// Its addresses, in the file. There is one at least.
    pub span: Span,
    /// Its name; of several for the same addresses the first in table order.
    pub name: NameAt,
}

fn function_at(symbol: &Symbol) -> Function
    requires { end_of symbol.now ≤ 2 ^ 47 }
    ensures { result ≡ function_at symbol.now }
{
    Function {
        span: Span {
            start: symbol.value,
            end: symbol.value + symbol.size,
        },
        name: symbol.name,
    }
}

/// The functions of some symbols.
pub(crate) fn functions_of(alloc: Global, list: &[Symbol]) -> Result<Vec<Function>, AllocError>
    requires { All (λ f. end_of f ≤ 2 ^ 47) list.now }
    ensures { IfOk result (λ functions. functions.items ≡ map function_at list.now) }
{
    list.iter().map(function_at).collect(alloc)
}

impl Ranged for Function {
    ghost start_of = { λ f. f.span.start };

    ghost end_of = { λ f. f.span.end };

    fn start(&self) -> u64 {
        self.span.start
    }

    fn passes(&self, address: u64) -> bool {
        address < self.span.end
    }
}

/// The number of the function whose range has an address. The time is logarithmic.
pub(crate) fn place_in(list: &[Function], address: u64) -> Option<u32>
    requires apart { AllPairs FollowsOn list.now }
    requires some { All (λ f. f.span.start < f.span.end) list.now }
    requires few { length list.now < 2 ^ 32 }
    ensures { result ≡ position (has_address address) list.now }
{
    let number = number_around(list, address)?;
    Some(number as u32)
}
