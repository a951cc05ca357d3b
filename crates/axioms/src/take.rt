// What a token does to a state of reading.
use crate::{AxiomReading, Due, TokenText};
use ontology::TokenKind;

// What the stack has of an expression around: of a role's filler, of the first part of an intersection, and of a later part 2 more than the place of its ` &` in
// the output. These stay numbers: `read_run` is lent a stack of them (2 KB), and `close_track` and `next_track` speak of them.
const FILLER: u16 = 0;

const FIRST_PART: u16 = 1;

impl AxiomReading<'_, '_> {
    ghost use Rattle.std.specs.Prelude.{◌≡◌, ◌+◌, ◌<◌, ◌≤◌, ◌↔◌, IsTrue, false, length, slice_set};
    ghost use Rattle.ontology.specs.Text.{closing};
    ghost use Rattle.axioms.specs.declared.Due.TheVariants.{AnnotationOrClass, NextClass, OpenParts, NextRole, BehindClass};
    ghost use Rattle.axioms.specs.Track.{begin_track, close_track, next_track, track_token};
    ghost use Rattle.axioms.specs.Steps.{Kept, kept, kept_of, class_room, TakenAs, ClassFits, token_read, held_track, HasRoom, Taking, HeldReading};

    // Only one token may stand here, and it writes nothing.
    fn go_on(&mut self, token: TokenText, expected: TokenKind, due: Due) -> bool
        ensures leads { self.new ≡ record self.old { due = due } }
        ensures stands { IsTrue result ↔ (token.entry.kind ≡ expected) }
    {
        self.due = due;
        token.kind == expected
    }

    // A class begins with the token.
    fn begin_class(&mut self, token: TokenText) -> bool
        requires { self.old.out.now.size + class_room ≤ length self.old.out.now.bytes.now }
        ensures taken { (p : Kept) → p.depth ≡ self.old.depth → ClassFits p self.old.stack.now self.old.out.now.size →
            TakenAs p (token_read token.entry) (kept_of self.new) self.new.stack.now self.new.out.now.bytes.now
            (begin_track self.old.right (held_track self.old).stack (held_track self.old).out (token_read token.entry)) result }
        ensures held { HeldReading self.old self.new }
    {
        self.due = match token.kind {
            TokenKind::Thing => {
                self.out.put_sign(b'*');
                Due::BehindClass
            }
            TokenKind::Nothing => {
                self.out.put_sign(b'-');
                Due::BehindClass
            }
            TokenKind::Name => {
                self.out.put_word(token.name);
                Due::BehindClass
            }
            TokenKind::Intersection => Due::OpenParts,
            TokenKind::SomeValues => Due::OpenSome,
            _ => return false,
        };
        true
    }

    // One more expression is around, with its number, and a class of it comes next.
    fn enter(&mut self, mark: u16)
        requires { self.old.depth < length self.old.stack.now }
        ensures marked { self.new.stack.now ≡ slice_set self.old.stack.now self.old.depth mark }
        ensures one_more { kept_of self.new ≡ kept NextClass self.old.right (self.old.depth + 1) self.old.out.now.size }
        ensures out_kept { self.new.out ≡ self.old.out }
        ensures held { self.new.stack.ghost_name ≡ self.old.stack.ghost_name }
    {
        self.stack[self.depth] = mark;
        self.depth += 1;
        self.due = Due::NextClass;
    }

    // An annotation, or the left side of a strict axiom.
    fn take_first(&mut self, token: TokenText) -> bool
        requires due { self.old.due ≡ AnnotationOrClass }
        requires ready { HasRoom self.old }
        ensures taken { Taking self.old (token_read token.entry) self.new (track_token (held_track self.old) (token_read token.entry)) result }
        ensures held { HeldReading self.old self.new }
    {
        if token.kind == TokenKind::Annotation {
            self.out.put(b'U');
            self.due = Due::OpenAnnotation;
            return true;
        }
        self.out.put(b'S');
        self.begin_class(token)
    }

    // A bracket opens the parts of an intersection.
    fn open_parts(&mut self, token: TokenText) -> bool
        requires due { self.old.due ≡ OpenParts }
        requires ready { HasRoom self.old }
        ensures taken { Taking self.old (token_read token.entry) self.new (track_token (held_track self.old) (token_read token.entry)) result }
        ensures held { HeldReading self.old self.new }
    {
        if token.kind != TokenKind::Opening {
            return false;
        }
        self.out.put_sign(b'&');
        self.enter(FIRST_PART);
        true
    }

    // The role of a filler.
    fn take_role(&mut self, token: TokenText) -> bool
        requires due { self.old.due ≡ NextRole }
        requires ready { HasRoom self.old }
        ensures taken { Taking self.old (token_read token.entry) self.new (track_token (held_track self.old) (token_read token.entry)) result }
        ensures held { HeldReading self.old self.new }
    {
        if token.kind != TokenKind::Name {
            return false;
        }
        self.out.put_sign(b'/');
        self.out.put_name(token.name);
        self.enter(FILLER);
        true
    }

    // A bracket closes behind a class.
    fn close_class(&mut self) -> bool
        requires { HasRoom self.old }
        ensures taken { Taking self.old closing self.new (close_track self.old.right (held_track self.old).stack (held_track self.old).out) result }
        ensures held { HeldReading self.old self.new }
    {
        if self.depth == 0 {
            if !self.right {
                return false;
            }
            self.out.put(b'\n');
            self.right = false;
            self.due = Due::NextAxiom;
            return true;
        }
        self.depth -= 1;
        self.due = Due::BehindClass;
        let mark = self.stack[self.depth];
        if mark == FILLER {
            return true;
        }
        if mark == FIRST_PART {
            return false;
        }
        let place = mark as usize - 2;
        self.out.bytes[place] = 0;
        self.out.bytes[place + 1] = 0;
        true
    }

    // Another class begins behind a class: the right side, or another part.
    fn next_class(&mut self, token: TokenText) -> bool
        requires { HasRoom self.old }
        ensures taken { Taking self.old (token_read token.entry) self.new
            (next_track self.old.right (held_track self.old).stack (held_track self.old).out (token_read token.entry)) result }
        ensures held { HeldReading self.old self.new }
    {
        if self.depth == 0 {
            if self.right {
                return false;
            }
            self.right = true;
            return self.begin_class(token);
        }
        let last = self.depth - 1;
        if self.stack[last] == FILLER {
            return false;
        }
        self.out.put_sign(b'&');
        self.stack[last] = self.out.size as u16;
        self.begin_class(token)
    }

    // What stands behind a class: a bracket that closes, or another class.
    fn take_behind(&mut self, token: TokenText) -> bool
        requires due { self.old.due ≡ BehindClass }
        requires ready { HasRoom self.old }
        ensures taken { Taking self.old (token_read token.entry) self.new (track_token (held_track self.old) (token_read token.entry)) result }
        ensures held { HeldReading self.old self.new }
    {
        if token.kind == TokenKind::Closing {
            return self.close_class();
        }
        self.next_class(token)
    }

    // What a token does, by what is due. Stays a match, and no closure is kept for it: it is data that the theorems on tracks speak of (`track_due`), and each step
    // has a contract of its own.
    fn take_due(&mut self, token: TokenText) -> bool
        requires { HasRoom self.old }
        ensures taken { Taking self.old (token_read token.entry) self.new (track_token (held_track self.old) (token_read token.entry)) result }
        ensures held { HeldReading self.old self.new }
    {
        match self.due {
            Due::NextAxiom => self.go_on(token, TokenKind::SubClassOf, Due::OpenAxiom),
            Due::OpenAxiom => self.go_on(token, TokenKind::Opening, Due::AnnotationOrClass),
            Due::AnnotationOrClass => self.take_first(token),
            Due::OpenAnnotation => self.go_on(token, TokenKind::Opening, Due::Property),
            Due::Property => self.go_on(token, TokenKind::Comment, Due::Value),
            Due::Value => self.go_on(token, TokenKind::Usual, Due::CloseAnnotation),
            Due::CloseAnnotation => self.go_on(token, TokenKind::Closing, Due::NextClass),
            Due::NextClass => self.begin_class(token),
            Due::OpenParts => self.open_parts(token),
            Due::OpenSome => self.go_on(token, TokenKind::Opening, Due::NextRole),
            Due::NextRole => self.take_role(token),
            Due::BehindClass => self.take_behind(token),
        }
    }

    // Takes the token, where it may stand. Where it may not, what is kept beside the lists stays as it was; of what the stack and the output hold nothing is said.
    pub fn take_token(&mut self, token: TokenText) -> bool
        requires { HasRoom self.old }
        ensures taken { Taking self.old (token_read token.entry) self.new (track_token (held_track self.old) (token_read token.entry)) result }
        ensures stays { result ≡ false → kept_of self.new ≡ kept_of self.old }
        ensures held { HeldReading self.old self.new }
    {
        let (due, right, depth, size) = (self.due, self.right, self.depth, self.out.size);
        if self.take_due(token) {
            return true;
        }
        self.due = due;
        self.right = right;
        self.depth = depth;
        self.out.size = size;
        false
    }
}
