// Every place of one store at once: what a crash and a checkpoint do beside the store itself.
ghost use Rattle.std.specs.Prelude.{◌≡◌, ◌<◌, ◌*◌, ◌||◌};
ghost use Rattle.protocol.specs.Checkpoint.{sent_owed};
ghost use Rattle.protocol.specs.Setup.{blank_links};
ghost use Rattle.protocol.specs.Slots.{no_contents, no_links};
ghost use Rattle.protocol.specs.Sweep.{on_places, swept};
ghost use Rattle.protocol.specs.Words.{bit, pick};

use crate::guards::one_more;
use protocol::sets::is_in;
use protocol::{Contents, Links, State, Store};

/// One copy for each owed note of the store.
pub(crate) fn send_owed(copies: &mut [u8; 256], p: usize, owed: u32)
    requires { p < 8 }
    ensures { copies.new ≡ sent_owed owed p copies.old }
{
    // A store that owes nothing is passed over at once.
    if owed == 0 {
        return;
    }
    for v in 0..32 {
        if is_in(owed, v) {
            copies[p * 32 + v] = one_more(copies[p * 32 + v]);
        }
    }
}

/// Contents that the store doesn't have are nothing.
fn sweep_contents(contents: &mut [Contents; 256], p: usize, s: &Store)
    requires { p < 8 }
    ensures { contents.new ≡ on_places 32 p (λ v c. pick (bit s.now.held v || bit s.now.kept v) c no_contents) no_contents contents.old }
{
    for v in 0..32 {
        if !s.has_contents(v) {
            contents[p * 32 + v] = Contents {
                asserter: 0,
                causes: 0,
                word: 0,
            };
        }
    }
}

/// So are the cause links of senders whose contents it doesn't have.
// Not one generic function with the above: it takes six parameters and, tried, lemmas that these two don't need, so is no plainer.
fn sweep_links(links: &mut [Links; 128], p: usize, s: &Store)
    requires { p < 8 }
    ensures { links.new ≡ on_places 16 p (λ k l. pick (bit s.now.held (k * 2) || bit s.now.kept (k * 2)) l blank_links) no_links links.old }
{
    for k in 0..16 {
        if !s.has_contents(k * 2) {
            links[p * 16 + k] = Links { to: [0; 16] };
        }
    }
}

/// What neither of the store's states has any more is nothing.
#[tactic(auto, unfolding(protocol::specs::Sweep::swept))]
pub(crate) fn sweep(m: &mut State, p: usize)
    requires { p < 8 }
    ensures { m.new ≡ swept m.old p }
{
    sweep_contents(&mut m.contents, p, &m.shelves[p]);
    sweep_links(&mut m.links, p, &m.shelves[p]);
}
