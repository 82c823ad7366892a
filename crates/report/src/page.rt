// Numbers put into a page, with a word before them.
ghost use Rattle.std.specs.Prelude.{◌≡◌, ◌++◌};
ghost use Rattle.scheduler.specs.Runner.{decimal, line};
ghost use Rattle.pages.specs.Text.{HasRoom};

use pages::Page;

// A number in decimal digits.
pub(crate) fn put_decimal(page: &mut Page, x: usize)
    requires { HasRoom page.old (decimal x) }
    ensures { page.new ≡ page.old ++ decimal x }
{
    if x >= 10 {
        put_decimal(page, x / 10);
    }
    page.push(b'0' + (x % 10) as u8);
}

// A word and a number.
pub(crate) fn put_count(page: &mut Page, word: &[u8], x: usize)
    requires { HasRoom page.old (word.now ++ decimal x) }
    ensures { page.new ≡ page.old ++ (word.now ++ decimal x) }
{
    page.put(word);
    put_decimal(page, x);
}

// A word and a number, which end a line.
pub(crate) fn put_line(page: &mut Page, word: &[u8], x: usize)
    requires { HasRoom page.old (line (word.now ++ decimal x)) }
    ensures { page.new ≡ page.old ++ line (word.now ++ decimal x) }
{
    put_count(page, word, x);
    page.push(b'\n');
}
