// A place of a heat map: how often, of so many blocks, it held a level, as a grey and as a character.
#![tactic(auto)]

ghost use Rattle.std.specs.Prelude.{◌≡◌, ◌≤◌};
ghost use Rattle.heat.specs.Heat.{scaled, grey_of, shade_of, mark_of};

fn wide(x: u32) -> u64
    ensures { (result ≡ x) × (result ≤ 4294967295) }
{
    x as u64
}

// One of top + 1 steps: 0 for never, top for always.
fn scaled(top: u64, count: u32, blocks: u32) -> u64
    requires { top ≤ 255 }
    ensures { result ≡ scaled top count blocks }
{
    if blocks == 0 {
        return 0;
    }
    let step = (wide(count) * top + wide(blocks - 1)) / wide(blocks);
    if top < step {
        return top;
    }
    step
}

// 0 for never to 255 for always, as in a PGM picture.
pub fn grey(count: u32, blocks: u32) -> u64
    ensures { result ≡ grey_of count blocks }
{
    scaled(255, count, blocks)
}

// 0 for never to 9 for always.
pub fn shade(count: u32, blocks: u32) -> u64
    ensures { result ≡ shade_of count blocks }
{
    scaled(9, count, blocks)
}

// The character of a shade.
pub fn mark(shade: u64) -> u8
    ensures { result ≡ mark_of shade }
{
    match shade {
        0 => b' ',
        1 => b'.',
        2 => b':',
        3 => b'-',
        4 => b'=',
        5 => b'+',
        6 => b'*',
        7 => b'#',
        8 => b'%',
        _ => b'@',
    }
}
