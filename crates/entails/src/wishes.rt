// What would help: it guides the search, and nothing is promised of it.

// A row of the first claim, by the names that stand for its ends, that might go through a place.
#[derive(Clone, Copy)]
pub struct Detour {
    pub row: (u8, u8),
    pub through: u8,
}

// Two names of which it should be known whether they are the same; and a row that might go through a place. By default nothing.
#[derive(Clone, Copy, Default)]
pub struct Wish {
    pub pair: Option<(u8, u8)>,
    pub detour: Option<Detour>,
}

impl Wish {
    // To know whether x and y are the same.
    pub fn pair(x: u8, y: u8) -> Wish {
        Wish {
            pair: Some((x, y)),
            detour: None,
        }
    }

    // To have the row go through where the name is. Nothing goes through nowhere.
    pub fn detour(row: (u8, u8), through: u8) -> Wish {
        Wish {
            pair: None,
            detour: (through != 0).then_some(Detour { row, through }),
        }
    }
}
