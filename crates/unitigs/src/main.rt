// `unitigs`: a label file on standard input; its unitigs as FASTA, or the line of a refusal, on standard output.
#![tactic(auto)]

ghost use Rattle.std.specs.Prelude.{◌≡◌, ◌≤◌, length, take, replicate};
ghost use Rattle.label_file.specs.Output.{unitigs};

use std::io;

// What is to be printed for a file, in a text of zeros; the other buffers are filled with zeros here. The answer is
// its size.
fn list(file: &[u8], text: &mut [u8]) -> usize
    requires { text.old ≡ replicate 8192 0 }
    ensures { (take result text.new ≡ unitigs file.now) × (result ≤ length text.new) }
{
    let mut keys = [0u64; 2048];
    let mut counts = [0u32; 1024];
    let mut labels = [0u8; 8192];
    let mut starts = [0u32; 1024];
    let mut lengths = [0u32; 1024];
    let mut marks = [0u8; 1024];
    let printed = label_file::list_unitigs(
        file,
        &mut keys,
        &mut counts,
        &mut labels,
        &mut starts,
        &mut lengths,
        &mut marks,
        text,
    );
    printed.unwrap_or(0)
}

// A buffer one byte larger than the largest file tells one that is too large.
fn main(rt: HostRuntime) -> io::Result<()> {
    let mut file = [0u8; 16385];
    let Ok(n) = reading::read_input(&rt, &mut file) else {
        return eprintln!(rt; "unitigs: standard input could not be read");
    };
    let mut text = [0u8; 8192];
    let size = list(&file[..n], &mut text);
    rt.write_all(&text[..size]).or_else(|_| eprintln!(rt;
        "unitigs: standard output could not be written"
    ))
}
