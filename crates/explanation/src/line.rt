// The end of a line.
ghost use Rattle.std.specs.Prelude.{◌≡◌};
ghost use Rattle.lines.specs.Ends.{without_end};

// The line without the byte that ends it, as crate `lines` takes it away; the last line of an input may have none.
pub fn without_end(line: &[u8]) -> &[u8]
    ensures { result.now ≡ without_end line.now }
{
    lines::line::without_end(line)
}
