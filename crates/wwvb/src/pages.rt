// The call that prints a recording as pages (document 02, 8).
ghost use Rattle.std.specs.Prelude.{◌≡◌, List, ℕ};
ghost use Rattle.page.specs.Answer.{print_outcome};
ghost use Rattle.page_rules.specs.Printing.{print_pages};
ghost use Rattle.wwvb.specs.Pages.{print_reply};

use questions::Refusal;

// The refusal or 0, and the number of bytes written; refused, that number is 0.
#[repr(C)]
#[derive(Clone, Copy)]
pub struct PrintReply {
    pub refusal: usize,
    pub bytes: usize,
}

impl From<Result<usize, Refusal>> for PrintReply {
    ghost from_gives = { λ answer reply. (buffer : List ℕ) → print_reply reply buffer ≡ print_outcome answer buffer };

    #[tactic(auto, unfolding(page_rules::specs::Printing::unprinted))]
    fn from(answer: Result<usize, Refusal>) -> PrintReply {
        match answer {
            Ok(bytes) => PrintReply { refusal: 0, bytes },
            Err(refusal) => PrintReply {
                refusal: u32::from(refusal) as usize,
                bytes: 0,
            },
        }
    }
}

// Prints a recording as pages.
#[unsafe(no_mangle)]
pub extern "C" fn wwvb_print_pages(bits: &[u8], out: &mut [u8]) -> PrintReply
    ensures { print_reply result out.new ≡ print_pages out.old bits.now }
{
    PrintReply::from(page::print_pages(bits, out))
}
