//! The words of a line. Each call puts bytes at the end of what is printed so far.
ghost use Rattle.std.specs.Prelude.{◌≡◌, ◌++◌, ◌∷◌, [], map, All, OnOk, decimal, FitsSigned};
ghost use Rattle.std.specs.Fmt.{signed_decimal};
ghost use Rattle.std.specs.Int.{w128};
ghost use Rattle.grind_report.specs.Report.{spaced, IsShort};

use grind_outside::{List, Memory};
use grind_term_graph::NodeId;
use itoa::Buffer;

/// A number, without a space.
pub fn put_digits(out: &mut List<u8>, number: u32) -> Result<(), Memory>
    ensures { OnOk result (out.new ≡ out.old ++ decimal number) }
{
    let mut buffer = Buffer::new();
    out.extend(buffer.format(number).as_bytes())?;
    Ok(())
}

/// A word after a space.
pub fn put_word(out: &mut List<u8>, word: &[u8]) -> Result<(), Memory>
    ensures { OnOk result (out.new ≡ out.old ++ spaced (word.now ∷ [])) }
{
    out.push(b' ')?;
    out.extend(word)?;
    Ok(())
}

/// A number after a space.
pub fn put_number(out: &mut List<u8>, number: u32) -> Result<(), Memory>
    ensures text { OnOk result (out.new ≡ out.old ++ spaced (decimal number ∷ [])) }
    ensures short { IsShort number }
{
    out.push(b' ')?;
    put_digits(out, number)?;
    Ok(())
}

/// A signed number after a space.
pub fn put_integer(out: &mut List<u8>, value: i128) -> Result<(), Memory>
    ensures text { OnOk result (out.new ≡ out.old ++ spaced (signed_decimal value ∷ [])) }
    ensures fits { FitsSigned w128 value }
{
    let mut buffer = Buffer::new();
    out.push(b' ')?;
    out.extend(buffer.format(value).as_bytes())?;
    Ok(())
}

/// Numbers, each after a space.
pub fn put_numbers(out: &mut List<u8>, numbers: &[u32]) -> Result<(), Memory>
    ensures text { OnOk result (out.new ≡ out.old ++ spaced (map decimal numbers.now)) }
    ensures short { All IsShort numbers.now }
{
    for number in numbers {
        put_number(out, *number)?;
    }
    Ok(())
}

/// The numbers of nodes, each after a space.
pub fn put_nodes(out: &mut List<u8>, nodes: &[NodeId]) -> Result<(), Memory>
    ensures text { OnOk result (out.new ≡ out.old ++ spaced (map decimal nodes.now)) }
    ensures short { OnOk result (All IsShort nodes.now) }
{
    for node in nodes {
        put_number(out, node.number())?;
    }
    Ok(())
}

/// The line feed at the end of a line.
pub fn end_line(out: &mut List<u8>) -> Result<(), Memory>
    ensures { OnOk result (out.new ≡ out.old ++ 10 ∷ []) }
{
    out.push(b'\n')?;
    Ok(())
}
