// The network that the generator's stream is for.

/// Windows of ten minutes begin each minute, and their averages go into windows of an hour.
pub(crate) const NETWORK: &str = "version = 1
epoch = 3600
[[source]]
name = \"trades\"
file = \"trades.csv\"
fields = [\"at:int\", \"sym:text\", \"price:int\"]
[[box]]
name = \"bs\"
kind = \"bsort\"
in = [\"trades\"]
by = \"at\"
slack = 8
[[box]]
name = \"av\"
kind = \"aggregate\"
in = [\"bs\"]
size = 600
advance = 60
group = [\"sym\"]
give = [[\"avg\", \"avg\", \"price\"]]
cost = 4
selectivity = [333]
[[box]]
name = \"mx\"
kind = \"aggregate\"
in = [\"av\"]
size = 3600
advance = 3600
give = [[\"top\", \"max\", \"avg\"]]
[[output]]
name = \"avgs\"
from = \"av\"
[[output]]
name = \"tops\"
from = \"mx\"
graph = [[0, 0], [500, 800000], [1000, 1000000]]
";
