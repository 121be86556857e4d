// What a row does to its agent: the agent's state goes in whole and comes back whole, by one method for each family of rows.
ghost use Rattle.std.specs.Prelude.{◌≡◌, ◌<◌, ◌≤◌, Option, slice_index};
ghost use Rattle.choices.specs.Effect.{after, go_to, put};
ghost use Rattle.choices.specs.declared.Agent.{Agent as State};
ghost use Rattle.choices.specs.declared.Message.{Message};

use crate::{Agent, Message};
use tables::Row;
use tables::rows::{ADD, JUMP, ONES, SET, SUB};

// What a local row puts into its first register, where its registers hold x and y.
#[tactic(auto, using(crate::proofs::Effects::ones_of_word), unfolding(crate::specs::Effect::after))]
fn local_value(r: Row, x: u32, y: u32) -> u32
    requires { r.op ≤ 4 }
    ensures { (s : State) (m : Option Message) → slice_index s.regs r.x ≡ x → slice_index s.regs r.y ≡ y → put r.x result s ≡ after r m s }
{
    match r.op {
        SET => r.k,
        ADD => x.wrapping_add(y),
        SUB => x.wrapping_sub(y),
        ONES => y.count_ones(),
        _ => y.trailing_zeros(),
    }
}

impl Agent {
    // On at position p.
    fn go_to(self, p: u32) -> Agent
        ensures { result ≡ go_to p self }
    {
        Agent { pos: p, ..self }
    }

    // Register x becomes v, and on at p+1.
    fn put(mut self, x: u32, v: u32) -> Agent
        requires { (x ≤ 3) × (self.pos < 32) }
        ensures { result ≡ put x v self }
    {
        self.regs[x as usize] = v;
        self.pos += 1;
        self
    }

    // SET, ADD, SUB, ONES and LOW.
    pub fn local(self, r: Row) -> Agent
        requires { (r.op ≤ 4) × (r.x ≤ 3) × (r.y ≤ 3) × (self.pos < 32) }
        ensures { (m : Option Message) → result ≡ after r m self }
    {
        let v = local_value(r, self.regs[r.x as usize], self.regs[r.y as usize]);
        self.put(r.x, v)
    }

    // SKIP and JUMP.
    #[tactic(auto, unfolding(crate::specs::Effect::after))]
    pub fn moved(self, r: Row) -> Agent
        requires { (0x10 ≤ r.op) × (r.op ≤ 0x11) × (r.x ≤ 3) × (r.n ≤ 31) × (self.pos < 32) }
        ensures { (m : Option Message) → result ≡ after r m self }
    {
        if r.op == JUMP || self.regs[r.x as usize] == 0 {
            return self.go_to(self.pos + 1 + r.n);
        }
        self.go_to(self.pos + 1)
    }

    // SEND: the agent itself only goes on.
    #[tactic(auto, unfolding(crate::specs::Effect::after))]
    pub fn sent(self, r: Row) -> Agent
        requires { (r.op ≡ 0x20) × (self.pos < 32) }
        ensures { (m : Option Message) → result ≡ after r m self }
    {
        self.go_to(self.pos + 1)
    }

    // RECV, of the best message m.
    #[tactic(auto, unfolding(crate::specs::Effect::after, crate::specs::Effect::receive))]
    pub fn received(self, r: Row, m: Option<Message>) -> Agent
        requires { (r.op ≡ 0x30) × (r.x ≤ 3) × (r.n ≤ 31) × (self.pos < 32) }
        ensures { result ≡ after r m self }
    {
        match m {
            None => self.go_to(self.pos + 1 + r.n),
            Some(message) => self.put(r.x, message.value),
        }
    }
}
