ghost use Rattle.std.specs.Prelude.{◌≡◌};
ghost use Rattle.x10_model.specs.Frames.{uses, none};
ghost use Rattle.x10_model.specs.ReadingFrames.{same_tables};
ghost use Rattle.x10_frame.specs.Items.{item_of, tables_in, HasNext};

use crate::item::Item;

/// How many texts, rails and nodes a frame has, or how many of them were used so far.
#[derive(Clone, Copy, Debug, PartialEq, Eq)]
pub struct Used {
    pub texts: u32,
    pub rails: u32,
    pub nodes: u32,
}

impl Used {
    /// Nothing was used yet.
    #[inline(always)]
    pub fn none() -> Used
        ensures { tables_in result ≡ none }
    {
        Used {
            texts: 0,
            rails: 0,
            nodes: 0,
        }
    }

    /// Whether as much of everything was used as `all` says.
    #[inline(always)]
    pub fn is_all(&self, all: &Used) -> bool
        ensures { result ≡ same_tables (tables_in self.now) (tables_in all.now) }
    {
        self.texts == all.texts && self.rails == all.rails && self.nodes == all.nodes
    }

    /// What was used once a value was met.
    #[inline(always)]
    pub fn with(&self, item: &Item) -> Used
        requires { HasNext item.now }
        ensures { tables_in result ≡ uses (tables_in self.now) (item_of item.now) }
    {
        let Used {
            texts,
            rails,
            nodes,
        } = *self;
        match *item {
            Item::Text(i) => Used {
                texts: texts.max(i + 1),
                rails,
                nodes,
            },
            Item::Rail(i) => Used {
                texts,
                rails: rails.max(i + 1),
                nodes,
            },
            Item::Object(i) => Used {
                texts,
                rails,
                nodes: nodes.max(i + 1),
            },
            _ => *self,
        }
    }
}
