// Prints the desk program's answers: the listing of a solved case, and the line of a refusal. Each line ends in the byte 0A.
#![tactic(auto)]

// standard output
const OUT: i32 = 1;

// The digits that a line has at most; more are left out.
const WIDTH: usize = 512;

// A refusal's number and its place.
pub fn print_refusal(number: usize, place: usize) {
    print(b"refused ");
    print_number(number);
    print(b" at ");
    print_number(place);
    print(b"\n");
}

// The rounds, each shape's values by node, and the verdicts. The leading shapes * nodes values and the leading targets verdicts are read;
// what the slices lack is left out.
pub fn print_listing(
    nodes: usize,
    shapes: usize,
    targets: usize,
    rounds: usize,
    values: &[u8],
    verdicts: &[u8],
) {
    print(b"rounds ");
    print_number(rounds);
    print(b"\n");
    print_shapes(nodes, shapes, values);
    print(b"targets");
    print_digits(&verdicts[..targets.min(verdicts.len())]);
}

// A line for each shape: its number, and its values by node.
fn print_shapes(nodes: usize, shapes: usize, values: &[u8]) {
    let mut rest = values;
    for shape in 0..shapes {
        let Some((row, behind)) = rest.split_at_checked(nodes) else {
            return;
        };
        print_number(shape);
        print_digits(row);
        rest = behind;
    }
}

// What follows a line's first word: a blank and a digit for each value, or neither for no values, and the line's end.
fn print_digits(values: &[u8]) {
    let n = values.len().min(WIDTH);
    if n == 0 {
        print(b"\n");
        return;
    }
    let mut line = [b' '; WIDTH + 2];
    for (digit, value) in line[1..=n].iter_mut().zip(values) {
        *digit = b'0' + *value % 10;
    }
    line[n + 1] = b'\n';
    print(&line[..n + 2]);
}

fn print_number(n: usize) {
    io::print_decimal(OUT, n as u64);
}

fn print(text: &[u8]) {
    io::write_all(OUT, text);
}
